//! What the hashes of names depend on.

ghost use Rattle.std.specs.Prelude.{◌≡◌};
ghost use Rattle.tables.specs.Seeds.{seed_of};

use std::hash::{BuildHasher, DefaultHasher, FoldHasher, Hasher};

/// A seed for the hashes of the names of a text: a digest of the whole text. An author who changes a name so that its
/// hash collides with that of another changes the seed, and so the hashes of all names.
#[derive(Clone, Copy)]
pub struct Seed {
    start: FoldHasher,
}

impl Seed {
    /// Returns the seed of this text.
    pub fn of(text: &[u8]) -> Seed
        ensures { result ≡ seed_of text.now }
    {
        let mut digest = DefaultHasher::new();
        digest.write(text);
        let mut start = FoldHasher::default();
        start.write_u64(digest.finish());
        Seed { start }
    }
}

impl BuildHasher for Seed {
    type Hasher = FoldHasher;

    ghost build_hasher = { λ s. s.start };

    fn build_hasher(&self) -> FoldHasher {
        self.start
    }
}
