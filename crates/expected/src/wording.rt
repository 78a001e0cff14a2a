//! The text that lists the expected kinds of tokens.

ghost use Rattle.std.specs.Prelude.{◌≡◌, ◌++◌, map, IfOk, OnOk};
ghost use Rattle.std.specs.String.{string_bytes};
ghost use Rattle.expected.specs.Grouping.{has_all, without, items_of};
ghost use Rattle.expected.specs.KindWords.{word_of};
ghost use Rattle.expected.specs.Expectations.{rest_of_items, item_list, listed_items, expectation_of};
ghost use Rattle.expected.specs.declared.groups.TheConstants.{GROUPS};

use crate::groups::{GROUPS, Group, has, is_of, word_of_group};
use source::{ALL_KINDS, Kind, Memory, text_of};
use std::alloc::Global;

/// The most items that a text lists. If there are more, it gives their number.
pub const MAX_ITEMS: usize = 8;

/// Returns a kind as a person reads it: the symbol or the reserved word itself, `a name` or `a number`.
pub fn word_of(kind: Kind) -> &'static str
    ensures { result.now ≡ word_of kind }
{
    match kind {
        Kind::Name => "a name",
        Kind::Number => "a number",
        _ => text_of(kind),
    }
}

/// Returns whether all kinds of a group are among these.
#[tactic(auto, unfolding(crate::specs::Grouping::has_all))]
fn has_all(kinds: &[Kind], group: Group) -> bool
    ensures { result ≡ has_all kinds.now group }
{
    ALL_KINDS
        .iter()
        .all(|kind| !is_of(*kind, group) || has(kinds, *kind))
}

/// Returns these kinds without those of a group.
fn without(alloc: Global, group: Group, kinds: &[Kind]) -> Result<Vec<Kind>, Memory>
    ensures { IfOk result (λ left. left.items ≡ without group kinds.now) }
{
    let mut left = Vec::new(alloc);
    for kind in kinds {
        if !is_of(*kind, group) {
            left.push(*kind)?;
        }
    }
    Ok(left)
}

/// Appends the word of each kind.
fn add_words(words: &mut Vec<&'static str>, kinds: &[Kind]) -> Result<(), Memory>
    ensures { OnOk result (map (λ word. word.now) words.new.items
        ≡ map (λ word. word.now) words.old.items ++ map word_of kinds.now) }
{
    for kind in kinds {
        words.push(word_of(*kind))?;
    }
    Ok(())
}

/// Returns the words for these kinds, those of groups first.
fn items_for(alloc: Global, kinds: &[Kind]) -> Result<Vec<&'static str>, Memory>
    ensures { IfOk result (λ words. map (λ word. word.now) words.items ≡ items_of GROUPS kinds.now) }
{
    let mut words = Vec::new(alloc);
    let mut left = Vec::with_capacity(alloc, kinds.len())?;
    left.extend_from_slice(kinds)?;
    for group in &GROUPS {
        if has_all(&left, *group) {
            words.push(word_of_group(*group))?;
            left = without(alloc, *group, &left)?;
        }
    }
    add_words(&mut words, &left)?;
    Ok(words)
}

/// Appends items after a first one: `, ` before each, but `last` before the last.
fn add_following(text: &mut String, last: &str, items: &[&'static str]) -> Result<(), Memory>
    ensures { OnOk result (string_bytes text.new
        ≡ string_bytes text.old ++ rest_of_items last.now (map (λ item. item.now) items.now)) }
{
    for i in 0..items.len() {
        text.push_str(if i + 1 == items.len() { last } else { ", " })?;
        text.push_str(items[i])?;
    }
    Ok(())
}

/// Appends items one after another, with `last` before the last one, or `nothing` if there are none.
fn add_joined(text: &mut String, last: &str, items: &[&'static str]) -> Result<(), Memory>
    ensures { OnOk result (string_bytes text.new
        ≡ string_bytes text.old ++ item_list last.now (map (λ item. item.now) items.now)) }
{
    match items {
        [] => text.push_str("nothing")?,
        [first, others @ ..] => {
            text.push_str(first)?;
            add_following(text, last, others)?;
        }
    }
    Ok(())
}

/// Appends at most `MAX_ITEMS` items, and how many more there are.
fn add_listed(alloc: Global, text: &mut String, items: &[&'static str]) -> Result<(), Memory>
    ensures { OnOk result (string_bytes text.new
        ≡ string_bytes text.old ++ listed_items (map (λ item. item.now) items.now)) }
{
    if items.len() <= MAX_ITEMS {
        return add_joined(text, " or ", items);
    }
    add_joined(text, ", ", &items[..MAX_ITEMS])?;
    let more = (items.len() - MAX_ITEMS).to_string(alloc)?;
    text.push_str(", or ")?;
    text.push_str(more.as_str())?;
    text.push_str(" more")?;
    Ok(())
}

/// Returns the text that lists the expected kinds: `expected ;`, or `expected an operator, ) or ,`. If all kinds of
/// a group are among them, the group is named in their place. At most `MAX_ITEMS` items are listed, as in
/// `.., or 3 more`. Returns `Memory` if an allocation was refused.
pub fn expectation(alloc: Global, kinds: &[Kind]) -> Result<String, Memory>
    ensures { IfOk result (λ text. string_bytes text ≡ expectation_of kinds.now) }
{
    let items = items_for(alloc, kinds)?;
    let mut text = String::from_str(alloc, "expected ")?;
    add_listed(alloc, &mut text, &items)?;
    Ok(text)
}
