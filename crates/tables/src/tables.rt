//! Tables of first declarations.

ghost use Rattle.std.specs.Prelude.{◌≡◌, ◌↔◌, ◌++◌, List, [], ◌∷◌, ℕ, length};
ghost use Rattle.std.specs.Prelude.{IfOk, OnOk, IsTrue};
ghost use Rattle.tables.specs.Firsts.{IsApart, first_of};
ghost use Rattle.tables.specs.Tables.{IsTable};
ghost use Rattle.tables.specs.Words.{words_at};

use crate::seed::Seed;
use crate::word::Word;
use indexmap::IndexMap;
use source::Span;
use std::alloc::{AllocError, Global};

/// A table of where each name of a list is declared first. It hashes names with the seed of their text.
#[derive(Drop)]
pub struct Table<'a> {
    /// The names, in order of declaration, each with the index at which it is declared first.
    firsts: IndexMap<Word<'a>, usize, Seed>,
    /// Whether all names are different.
    apart: bool,
}

impl<'a> Table<'a> {
    /// Returns the table of these names of a text, in order of declaration.
    ///
    /// # Errors
    /// `AllocError` if an allocation fails.
    pub fn of(
        alloc: Global,
        seed: Seed,
        text: &'a [u8],
        names: &[Span],
    ) -> Result<Table<'a>, AllocError>
        ensures { IfOk result (IsTable (words_at text.now names.now)) }
    {
        let mut table = Table {
            firsts: IndexMap::with_capacity_and_hasher(alloc, names.len(), seed)?,
            apart: true, // there are no names yet
        };
        for (index, name) in names.iter().enumerate() {
            table.enter(name.slice(text), index)?;
        }
        Ok(table)
    }

    /// Appends the name at this index. One that the table already has keeps its first index.
    fn enter(&mut self, name: &'a [u8], index: usize) -> Result<(), AllocError>
        ensures { (words : List (List ℕ)) → IsTable words self.old → index ≡ length words
            → OnOk result (IsTable (words ++ name.now ∷ []) self.new) }
    {
        let word = Word { bytes: name };
        if let Some(first) = self.firsts.insert(word, index)? {
            // `insert` has replaced the index. It cannot fail for a word that the map has.
            self.firsts.insert(word, first)?;
            self.apart = false;
        }
        Ok(())
    }

    /// Returns the index at which the name is declared first, if it is.
    pub fn find(&self, name: &[u8]) -> Option<usize>
        ensures { (words : List (List ℕ)) → IsTable words self.now → result ≡ first_of words name.now }
    {
        self.firsts.get(&Word { bytes: name }).copied()
    }

    /// Returns whether all names are different. Then each index is the first of its name, and no lookup is needed.
    pub fn is_apart(&self) -> bool
        ensures { (words : List (List ℕ)) → IsTable words self.now → IsTrue result ↔ IsApart words }
    {
        self.apart
    }
}
