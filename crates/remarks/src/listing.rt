//! A text and its items, for the names that are printed.

ghost use Rattle.std.specs.Prelude.{◌≡◌, ◌++◌, OnOk, string_bytes};
ghost use Rattle.declarations.specs.Resolution.{printed_name};
ghost use Rattle.remarks.specs.TypeWords.{cut_name, item_name};
ghost use Rattle.remarks.specs.Listings.{program_model};

use source::{Memory, Span, texts};
use std::alloc::Global;
use tree::Item;

/// The length in bytes to which a long name is cut.
pub const MAX_NAME: usize = 60;

/// A text, and the items of its tree in order.
#[derive(Clone, Copy)]
pub(crate) struct ItemListing<'a> {
    pub(crate) text: &'a [u8],
    pub(crate) items: &'a [Item],
}

impl ItemListing<'_> {
    /// Appends a name of the text, with U+FFFD for bytes that are not UTF-8. Returns `Memory` if an allocation was
    /// refused.
    pub(crate) fn add_name(
        &self,
        alloc: Global,
        text: &mut String,
        name: Span,
    ) -> Result<(), Memory>
        ensures { OnOk result (string_bytes text.new ≡ string_bytes text.old ++ printed_name self.now.text.now name) }
    {
        texts::push_name(alloc, text, name.slice(self.text))
    }

    /// Appends the name of the item with this index, cut if it is long, or nothing if there is none. Returns
    /// `Memory` if an allocation was refused.
    pub(crate) fn add_item(
        &self,
        alloc: Global,
        text: &mut String,
        index: usize,
    ) -> Result<(), Memory>
        ensures { OnOk result (string_bytes text.new ≡ string_bytes text.old ++ item_name (program_model self.now) index) }
    {
        match self.items.get(index) {
            Some(item) => add_cut(alloc, text, item.definition.name().slice(self.text)),
            None => Ok(()),
        }
    }
}

/// Appends a name, or its first `MAX_NAME` bytes and two dots if it is longer. Returns `Memory` if an allocation
/// was refused.
pub(crate) fn add_cut(alloc: Global, text: &mut String, word: &[u8]) -> Result<(), Memory>
    ensures { OnOk result (string_bytes text.new ≡ string_bytes text.old ++ cut_name word.now) }
{
    if word.len() > MAX_NAME {
        texts::push_name(alloc, text, &word[..MAX_NAME])?;
        text.push_str("..")?;
        return Ok(());
    }
    texts::push_name(alloc, text, word)
}
