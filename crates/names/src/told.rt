//! Mistakes in the number of arguments, and in jumps.

ghost use Rattle.std.specs.Prelude.{◌∷◌, [], OnOk, if◌then◌else◌, ◌==◌};
ghost use Rattle.declarations.specs.Mistakes.{Adds};

use declarations::Mistake;
use source::{Memory, Place, Span};

/// Adds that there are too few arguments, or too many, unless as many are given as are asked for.
pub(crate) fn judge_count(
    asked: usize,
    given: usize,
    place: Place,
    found: &mut Vec<Mistake>,
) -> Result<(), Memory>
    ensures { OnOk result (Adds found.old.items found.new.items
        (if asked == given then [] else Mistake.WrongNumber place asked given ∷ [])) }
{
    if asked == given {
        return Ok(());
    }
    found.push(Mistake::WrongNumber(place, asked, given))?;
    Ok(())
}

/// Adds a `break` outside a loop or switch.
pub(crate) fn judge_break(well: bool, word: Span, found: &mut Vec<Mistake>) -> Result<(), Memory>
    ensures { OnOk result (Adds found.old.items found.new.items
        (if well then [] else Mistake.BreakOutside word.place ∷ [])) }
{
    if well {
        return Ok(());
    }
    found.push(Mistake::BreakOutside(word.place))?;
    Ok(())
}

/// Adds a `continue` outside a loop.
pub(crate) fn judge_continue(well: bool, word: Span, found: &mut Vec<Mistake>) -> Result<(), Memory>
    ensures { OnOk result (Adds found.old.items found.new.items
        (if well then [] else Mistake.ContinueOutside word.place ∷ [])) }
{
    if well {
        return Ok(());
    }
    found.push(Mistake::ContinueOutside(word.place))?;
    Ok(())
}
