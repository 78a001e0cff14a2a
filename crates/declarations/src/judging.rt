//! Names that are declared twice, not declared, or past a limit.

ghost use Rattle.std.specs.Prelude.{◌≡◌, ◌↔◌, List, ◌∷◌, [], IsTrue, OnOk, Some, option_and_then, slice_get};
ghost use Rattle.source.specs.declared.token.Span.{Span};
ghost use Rattle.declarations.specs.Listed.{asked_name, past_limit, twice, twice_among};
ghost use Rattle.declarations.specs.Mistakes.{Adds};
ghost use Rattle.tables.specs.Tables.{IsTable};
ghost use Rattle.tables.specs.Words.{words_at};

use crate::mistake::{Limit, Mistake, NameSort};
use source::{Memory, Span};
use tables::Table;

/// Adds that nothing declares this name, which is of this sort.
///
/// # Errors
/// `Memory` if an allocation fails.
pub fn add_unknown(name: Span, sort: NameSort, found: &mut Vec<Mistake>) -> Result<(), Memory>
    ensures { OnOk result (Adds found.old.items found.new.items (Mistake.Unknown name sort ∷ [])) }
{
    found.push(Mistake::Unknown(name, sort))?;
    Ok(())
}

/// Adds that nothing declares the name, which is of this sort, if its table lacks it.
pub(crate) fn judge_name(
    text: &[u8],
    table: &Table<'_>,
    name: Span,
    sort: NameSort,
    found: &mut Vec<Mistake>,
) -> Result<(), Memory>
    ensures { (names : List Span) → IsTable (words_at text.now names) table.now
        → OnOk result (Adds found.old.items found.new.items (asked_name sort text.now names name)) }
{
    match table.find(name.slice(text)) {
        Some(_) => Ok(()),
        None => add_unknown(name, sort, found),
    }
}

/// Adds that the name is declared twice, if an earlier one is given.
///
/// # Errors
/// `Memory` if an allocation fails.
pub fn add_twice(name: Span, earlier: Option<Span>, found: &mut Vec<Mistake>) -> Result<(), Memory>
    ensures { OnOk result (Adds found.old.items found.new.items (twice name earlier)) }
{
    match earlier {
        Some(first) => found.push(Mistake::DeclaredTwice(name, first.place))?,
        None => {}
    }
    Ok(())
}

/// Adds a mistake for each name that an earlier one has.
pub(crate) fn judge_twice(
    text: &[u8],
    table: &Table<'_>,
    names: &[Span],
    found: &mut Vec<Mistake>,
) -> Result<(), Memory>
    ensures { IsTable (words_at text.now names.now) table.now
        → OnOk result (Adds found.old.items found.new.items (twice_among text.now names.now)) }
{
    if table.is_apart() {
        return Ok(());
    }
    for (index, name) in names.iter().enumerate() {
        let first = table.find(name.slice(text));
        if !is_at(first, index) {
            add_twice(*name, first_named(names, first), found)?;
        }
    }
    Ok(())
}

/// Returns whether a name was found at this index.
fn is_at(found: Option<usize>, index: usize) -> bool
    ensures { IsTrue result ↔ (found ≡ Some index) }
{
    match found {
        Some(first) => first == index,
        None => false,
    }
}

/// Returns the name at the index that was found.
fn first_named(names: &[Span], first: Option<usize>) -> Option<Span>
    ensures { result ≡ option_and_then (slice_get names.now) first }
{
    name_at(names, first?)
}

/// Adds a mistake at the first name past the limit, if there is one.
pub(crate) fn judge_limit(
    limit: Limit,
    names: &[Span],
    found: &mut Vec<Mistake>,
) -> Result<(), Memory>
    ensures { OnOk result (Adds found.old.items found.new.items (past_limit limit names.now)) }
{
    match name_at(names, limit.most()) {
        Some(name) => found.push(Mistake::LimitPassed(name.place, limit))?,
        None => {}
    }
    Ok(())
}

fn name_at(names: &[Span], index: usize) -> Option<Span>
    ensures { result ≡ slice_get names.now index }
{
    names.get(index).copied()
}
