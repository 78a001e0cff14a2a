//! Mistakes in what a case of a switch awaits.

ghost use Rattle.std.specs.Prelude.{◌≡◌, ◌∷◌, [], ℕ, Some, OnOk, if◌then◌else◌};
ghost use Rattle.names.specs.Cases.{awaited_span, closed_mistakes, message_case_mistakes, other_mistakes};
ghost use Rattle.declarations.specs.Mistakes.{Adds};
ghost use Rattle.names.specs.Values.{receives};
ghost use Rattle.tree.specs.Trees.{message_tree};

use crate::operands::{add_wrong_type, ask};
use crate::told::judge_count;
use declarations::{Demand, Mismatch, Mistake, ValueType};
use program::{Direction, Side};
use source::{Memory, Span};
use tree::{Awaited, Bind, Message};

/// Returns whether this end receives what goes in this direction.
pub(crate) fn receives(end: Side, direction: Direction) -> bool
    ensures { result ≡ receives end direction }
{
    match (end, direction) {
        (Side::Imp, Direction::Out) | (Side::Exp, Direction::In) => true,
        _ => false,
    }
}

/// Adds a mistake if a case for a close binds something.
pub(crate) fn judge_closed(
    binds: &[Bind],
    word: Span,
    found: &mut Vec<Mistake>,
) -> Result<(), Memory>
    ensures { OnOk result (Adds found.old.items found.new.items (closed_mistakes binds.now word)) }
{
    judge_count(0, binds.len(), word.place, found)
}

/// Adds that an endpoint has no case for its close, if it lacks one.
pub(crate) fn judge_lacking(
    lacking: bool,
    name: Span,
    found: &mut Vec<Mistake>,
) -> Result<(), Memory>
    ensures { OnOk result (Adds found.old.items found.new.items (if lacking then Mistake.LacksClosed name ∷ [] else [])) }
{
    if !lacking {
        return Ok(());
    }
    found.push(Mistake::LacksClosed(name))?;
    Ok(())
}

fn awaited_span(awaited: Awaited) -> Span
    ensures { result ≡ awaited_span awaited }
{
    match awaited {
        Awaited::Message(word) => word,
        Awaited::Closed(word) => word,
    }
}

/// Adds that an earlier case awaits the same, if one does.
pub(crate) fn judge_case_twice(
    twice: bool,
    endpoint: Span,
    awaited: Awaited,
    found: &mut Vec<Mistake>,
) -> Result<(), Memory>
    ensures { OnOk result (Adds found.old.items found.new.items
        (if twice then Mistake.CaseTwice endpoint (awaited_span awaited) ∷ [] else [])) }
{
    if !twice {
        return Ok(());
    }
    found.push(Mistake::CaseTwice(endpoint, awaited_span(awaited)))?;
    Ok(())
}

/// Adds the mistakes in a case on a name that is no endpoint.
pub(crate) fn judge_other_head(
    ty: ValueType,
    endpoint: Span,
    awaited: Awaited,
    binds: &[Bind],
    found: &mut Vec<Mistake>,
) -> Result<(), Memory>
    ensures { OnOk result (Adds found.old.items found.new.items
        (other_mistakes ty (record { endpoint = endpoint; awaited = awaited; binds = binds.now }) awaited)) }
{
    add_wrong_type(endpoint.place, Mismatch::Given(Demand::Endpoint, ty), found)?;
    match awaited {
        Awaited::Closed(word) => judge_closed(binds, word, found),
        Awaited::Message(_) => Ok(()),
    }
}

/// Adds the mistakes in a case for this message at this end.
pub(crate) fn judge_message_case(
    message: &Message,
    end: Side,
    word: Span,
    binds: &[Bind],
    found: &mut Vec<Mistake>,
) -> Result<(), Memory>
    ensures { (n : ℕ) → OnOk result (Adds found.old.items found.new.items
        (message_case_mistakes n (Some (message_tree message.now)) end word binds.now)) }
{
    let well = receives(end, message.direction);
    ask(well, word.place, Mismatch::NotReceived(end, word), found)?;
    judge_count(message.params.len(), binds.len(), word.place, found)
}
