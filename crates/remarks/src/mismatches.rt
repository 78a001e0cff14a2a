//! Texts for wrong types.

ghost use Rattle.std.specs.Prelude.{◌≡◌, ◌++◌, OnOk, codes, drop, string_bytes};
ghost use Rattle.std.specs.Str.Lossy.{utf8_lossy};
ghost use Rattle.declarations.specs.Resolution.{printed_name};
ghost use Rattle.remarks.specs.TypeWords.{demand_words, type_words};
ghost use Rattle.remarks.specs.Listings.{program_model};
ghost use Rattle.remarks.specs.Remarks.{mismatch_words, side_words};
ghost use Rattle.tables.specs.Words.{word_at};

use crate::line::add;
use crate::listing::ItemListing;
use crate::types::{add_demand, add_type};
use crate::words::side_words;
use declarations::{Demand, Mismatch, ValueType};
use program::Side;
use source::{Memory, Span, texts};
use std::alloc::Global;

/// The length of `Send`, after which the name of the message begins.
const SEND_LEN: usize = 4;

/// Appends why a type is wrong. Returns `Memory` if an allocation was refused.
pub(crate) fn add_mismatch(
    alloc: Global,
    text: &mut String,
    listing: &ItemListing<'_>,
    mismatch: Mismatch,
) -> Result<(), Memory>
    ensures { OnOk result (string_bytes text.new
        ≡ string_bytes text.old ++ mismatch_words (program_model listing.now) mismatch) }
{
    match mismatch {
        Mismatch::Given(asked, given) => add_given(alloc, text, listing, asked, given),
        Mismatch::NoValue(ty) => {
            add(text, "return needs a value of type ")?;
            add_type(alloc, text, listing, ty)
        }
        Mismatch::ValueReturned => add(text, "a void method returns no value"),
        Mismatch::NotSent(side, word) => add_not_sent(alloc, text, listing, side, word),
        Mismatch::NotReceived(side, word) => add_not_received(alloc, text, listing, side, word),
        Mismatch::SendStarted => add(text, "start takes a method call, not a send"),
        Mismatch::LengthWritten => add(text, "the length of an array cannot be assigned"),
        Mismatch::FieldOwns => add(text, "an owning field can only be used in exchange"),
    }
}

/// Appends what is asked and the type that is given. Returns `Memory` if an allocation was refused.
fn add_given(
    alloc: Global,
    text: &mut String,
    listing: &ItemListing<'_>,
    asked: Demand,
    given: ValueType,
) -> Result<(), Memory>
    ensures { OnOk result (string_bytes text.new ≡ string_bytes text.old
        ++ (codes "expected " ++ (demand_words (program_model listing.now) asked
        ++ (codes ", found " ++ type_words (program_model listing.now) given)))) }
{
    add(text, "expected ")?;
    add_demand(alloc, text, listing, asked)?;
    add(text, ", found ")?;
    add_type(alloc, text, listing, given)
}

/// Appends which end does not send which message: the one named after `Send` in this word. Returns `Memory` if an
/// allocation was refused.
fn add_not_sent(
    alloc: Global,
    text: &mut String,
    listing: &ItemListing<'_>,
    side: Side,
    word: Span,
) -> Result<(), Memory>
    ensures { OnOk result (string_bytes text.new ≡ string_bytes text.old
        ++ (side_words side ++ (codes " does not send " ++ utf8_lossy (drop 4 (word_at listing.now.text.now word))))) }
{
    add(text, side_words(side))?;
    add(text, " does not send ")?;
    texts::push_name(alloc, text, after_send(word.slice(listing.text)))
}

/// Returns the part of a word after `Send`, or an empty slice if the word is shorter.
pub(crate) fn after_send(word: &[u8]) -> &[u8]
    ensures { result.now ≡ drop 4 word.now }
{
    word.get(SEND_LEN..).unwrap_or(&[])
}

/// Appends which end does not receive which message. Returns `Memory` if an allocation was refused.
fn add_not_received(
    alloc: Global,
    text: &mut String,
    listing: &ItemListing<'_>,
    side: Side,
    word: Span,
) -> Result<(), Memory>
    ensures { OnOk result (string_bytes text.new ≡ string_bytes text.old
        ++ (side_words side ++ (codes " does not receive " ++ printed_name listing.now.text.now word))) }
{
    add(text, side_words(side))?;
    add(text, " does not receive ")?;
    listing.add_name(alloc, text, word)
}
