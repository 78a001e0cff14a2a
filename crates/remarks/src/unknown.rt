//! Remarks on names that nothing declares.

ghost use Rattle.std.specs.Prelude.{◌≡◌, ◌++◌, IfOk, codes, option_map, string_bytes};
ghost use Rattle.remarks.specs.TypeWords.{cut_name};
ghost use Rattle.remarks.specs.Listings.{program_model};
ghost use Rattle.explanations.specs.Lines.{line_model};
ghost use Rattle.remarks.specs.Remarks.{front_words, near_remark, unknown_remark};
ghost use Rattle.explanations.specs.Lines.{line_model};
ghost use Rattle.remarks.specs.Remarks.{word_sought};
ghost use Rattle.tables.specs.Words.{word_at};

use crate::line::{add, plain, remark_at};
use crate::listing::{ItemListing, add_cut};
use crate::mismatches::after_send;
use crate::words::front_words;
use declarations::NameSort;
use explanations::Line;
use nearest::nearest;
use source::{Memory, Span};
use std::alloc::Global;

/// Returns the remark on a name of a sort that nothing declares: the nearest name that could be meant, at its
/// declaration, or for `NameSort::Length` that an array has only its `Length`. Returns `Memory` if an allocation
/// was refused.
pub(crate) fn unknown_remark(
    alloc: Global,
    listing: &ItemListing<'_>,
    name: Span,
    sort: NameSort,
) -> Result<Option<Line>, Memory>
    ensures { IfOk result (λ said. option_map line_model said
        ≡ unknown_remark (program_model listing.now) name sort) }
{
    match sort {
        NameSort::Length => plain(alloc, name.place, "the only field of an array is Length"),
        _ => near_remark(alloc, listing, name, sort),
    }
}

/// Returns a remark with the nearest of the names that could be meant, if one is near. Returns `Memory` if an
/// allocation was refused.
fn near_remark(
    alloc: Global,
    listing: &ItemListing<'_>,
    name: Span,
    sort: NameSort,
) -> Result<Option<Line>, Memory>
    ensures { IfOk result (λ said. option_map line_model said
        ≡ near_remark (program_model listing.now) name sort) }
{
    let names = listing.candidates(alloc, name.place, sort)?;
    match nearest(listing.text, word_sought(listing, name, sort), &names) {
        Some(near) => Ok(remark_at(near.place, near_text(alloc, listing, near, sort)?)),
        None => Ok(None),
    }
}

/// Returns the word that is compared with the names of a sort: for a sent message the part after `Send`, else the name.
fn word_sought<'a>(listing: &ItemListing<'a>, name: Span, sort: NameSort) -> &'a [u8]
    ensures { result.now ≡ word_sought (program_model listing.now) name sort }
{
    let word = name.slice(listing.text);
    match sort {
        NameSort::Sent(_) => after_send(word),
        _ => word,
    }
}

/// Returns the text that names the nearest name of a sort. Returns `Memory` if an allocation was refused.
fn near_text(
    alloc: Global,
    listing: &ItemListing<'_>,
    near: Span,
    sort: NameSort,
) -> Result<String, Memory>
    ensures { IfOk result (λ text. string_bytes text
        ≡ codes "the nearest name is "
        ++ (front_words sort ++ cut_name (word_at listing.now.text.now near))) }
{
    let mut text = String::from_str(alloc, "the nearest name is ")?;
    add(&mut text, front_words(sort))?;
    add_cut(alloc, &mut text, near.slice(listing.text))?;
    Ok(text)
}
