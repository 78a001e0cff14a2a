//! Names as keys.

ghost use Rattle.std.specs.Hash as fed;
ghost use Rattle.std.specs.Cmp.Rules.{hashing};
ghost use Rattle.std.proofs.Common.{rules};

use std::hash::{Hash, Hasher};

/// A name of a text. It hashes all its bytes at once, where a slice of bytes hashes them one by one.
#[derive(Clone, Copy, PartialEq, Eq)]
pub struct Word<'a> {
    pub(crate) bytes: &'a [u8],
}

impl<'a> Hash for Word<'a> {
    ghost hash_input = { λ w. fed.str w.bytes.now };

    ghost respects_eq = { Prim.search (hashing, rules) };

    fn hash<H: Hasher>(&self, hasher: &mut H) {
        hasher.write(self.bytes);
        // The hasher multiplies once for a name of 9 to 16 bytes, and the author of the name controls a factor of
        // that product, so names could be written that collide under many seeds. One more byte, which is in no name,
        // makes it multiply once more.
        hasher.write_u8(0xff);
    }
}
