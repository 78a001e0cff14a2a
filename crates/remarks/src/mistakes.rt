//! Remarks on mistakes in names or types.

ghost use Rattle.std.specs.Prelude.{◌≡◌, ◌++◌, IfOk, codes, map, option_map, string_bytes};
ghost use Rattle.std.specs.Fmt.{decimal};
ghost use Rattle.declarations.specs.Mistakes.{most_of};
ghost use Rattle.declarations.specs.Resolution.{printed_name};
ghost use Rattle.remarks.specs.Listings.{program_model};
ghost use Rattle.explanations.specs.Lines.{line_model};
ghost use Rattle.remarks.specs.Remarks.{limit_back, limit_front, mismatch_words, remark_of};
ghost use Rattle.tree.specs.Trees.{item_tree};

use crate::line::{add, add_number, plain, remark_at};
use crate::listing::ItemListing;
use crate::mismatches::add_mismatch;
use crate::unknown::unknown_remark;
use crate::words::{limit_back, limit_front};
use declarations::{Limit, Mismatch, Mistake};
use explanations::Line;
use source::{Memory, Span};
use std::alloc::Global;
use tree::Item;

/// Returns the remark on a mistake in names or types, in the text whose tree has these items: for example what is
/// asked and what is given, or where a name is declared first. Returns `None` for a name that nothing declares if
/// no name that could be meant is near. Returns `Memory` if an allocation was refused.
pub fn remark(
    alloc: Global,
    text: &[u8],
    items: &[Item],
    mistake: Mistake,
) -> Result<Option<Line>, Memory>
    ensures { IfOk result (λ said. option_map line_model said
        ≡ remark_of (record { text = text.now; items = map item_tree items.now }) mistake) }
{
    let listing = ItemListing { text, items };
    match mistake {
        Mistake::DeclaredTwice(_, first) => plain(alloc, first, "first declared here"),
        Mistake::Unknown(name, sort) => unknown_remark(alloc, &listing, name, sort),
        Mistake::WrongType(place, why) => {
            Ok(remark_at(place, mismatch_text(alloc, &listing, why)?))
        }
        Mistake::WrongNumber(place, asked, given) => {
            Ok(remark_at(place, number_text(alloc, asked, given)?))
        }
        Mistake::BreakOutside(place) => plain(alloc, place, "break must be in a loop or a switch"),
        Mistake::ContinueOutside(place) => plain(alloc, place, "continue must be in a loop"),
        Mistake::LimitPassed(place, limit) => Ok(remark_at(place, limit_text(alloc, limit)?)),
        Mistake::NotStarted(name) => {
            plain(
                alloc,
                name.place,
                "it returns a value, or takes a block without [Claims]",
            )
        }
        Mistake::CaseTwice(name, _) => {
            plain(alloc, name.place, "an earlier case already receives this")
        }
        Mistake::LacksClosed(name) => {
            Ok(remark_at(name.place, closed_text(alloc, &listing, name)?))
        }
    }
}

/// Returns why a type is wrong. Returns `Memory` if an allocation was refused.
fn mismatch_text(alloc: Global, listing: &ItemListing<'_>, why: Mismatch) -> Result<String, Memory>
    ensures { IfOk result (λ text. string_bytes text ≡ mismatch_words (program_model listing.now) why) }
{
    let mut text = String::new(alloc);
    add_mismatch(alloc, &mut text, listing, why)?;
    Ok(text)
}

/// Returns how many arguments are asked and how many are given. Returns `Memory` if an allocation was refused.
fn number_text(alloc: Global, asked: usize, given: usize) -> Result<String, Memory>
    ensures { IfOk result (λ text. string_bytes text
        ≡ codes "expected " ++ (decimal asked ++ (codes ", found " ++ decimal given))) }
{
    let mut text = String::from_str(alloc, "expected ")?;
    add_number(&mut text, asked)?;
    add(&mut text, ", found ")?;
    add_number(&mut text, given)?;
    Ok(text)
}

/// Returns what is limited, and to how many. Returns `Memory` if an allocation was refused.
fn limit_text(alloc: Global, limit: Limit) -> Result<String, Memory>
    ensures { IfOk result (λ text. string_bytes text
        ≡ limit_front limit ++ (decimal (most_of limit) ++ limit_back limit)) }
{
    let mut text = String::from_str(alloc, limit_front(limit))?;
    add_number(&mut text, limit.most())?;
    add(&mut text, limit_back(limit))?;
    Ok(text)
}

/// Returns which case an endpoint lacks. Returns `Memory` if an allocation was refused.
fn closed_text(alloc: Global, listing: &ItemListing<'_>, name: Span) -> Result<String, Memory>
    ensures { IfOk result (λ text. string_bytes text
        ≡ codes "missing case " ++ (printed_name listing.now.text.now name ++ codes ".ChannelClosed()")) }
{
    let mut text = String::from_str(alloc, "missing case ")?;
    listing.add_name(alloc, &mut text, name)?;
    add(&mut text, ".ChannelClosed()")?;
    Ok(text)
}
