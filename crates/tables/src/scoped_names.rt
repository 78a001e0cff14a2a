//! Names in scope.

ghost use Rattle.std.specs.Prelude.{◌≡◌, ◌++◌, [], ◌∷◌, None, OnErr, OnOk, length, take};
ghost use Rattle.tables.specs.Scoped.{entries_of, meaning_of};

use crate::seed::Seed;
use crate::word::Word;
use indexmap::IndexMap;
use std::alloc::{AllocError, Global};

/// The names in scope, in order of declaration, each with what it means. No two are the same. It hashes names with the
/// seed of their text.
#[derive(Drop)]
pub struct ScopedNames<'a, T> {
    names: IndexMap<Word<'a>, T, Seed>,
}

impl<'a, T: Copy> ScopedNames<'a, T> {
    /// Returns no names.
    pub fn new(alloc: Global, seed: Seed) -> ScopedNames<'a, T>
        ensures { entries_of result ≡ [] }
    {
        ScopedNames {
            names: IndexMap::with_hasher(alloc, seed),
        }
    }

    /// Returns how many names are in scope.
    pub fn len(&self) -> usize
        ensures { result ≡ length (entries_of self.now) }
    {
        self.names.len()
    }

    /// Returns what the name means, if it is in scope.
    pub fn find(&self, name: &[u8]) -> Option<T>
        ensures { result ≡ meaning_of (entries_of self.now) name.now }
    {
        self.names.get(&Word { bytes: name }).copied()
    }

    /// Brings a name into scope that is not in it yet.
    ///
    /// # Errors
    /// `AllocError` if an allocation fails. The names are then as before.
    pub fn add(&mut self, name: &'a [u8], meaning: T) -> Result<(), AllocError>
        requires { meaning_of (entries_of self.old) name.now ≡ None }
        ensures added { OnOk result (entries_of self.new ≡ entries_of self.old ++ (name.now, meaning) ∷ []) }
        ensures kept { OnErr result (entries_of self.new ≡ entries_of self.old) }
    {
        self.names.insert(Word { bytes: name }, meaning)?;
        Ok(())
    }

    /// Leaves a scope: the first `outer` names stay.
    pub fn leave(&mut self, outer: usize)
        ensures { entries_of self.new ≡ take outer (entries_of self.old) }
    {
        self.names.truncate(outer);
    }
}
