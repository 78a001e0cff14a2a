//! The checks of calls and starts, and the row after their arguments.

ghost use Rattle.std.specs.Prelude.{◌≡◌, ◌&&◌, [], ◌∷◌, IfSome};
ghost use Rattle.rules.specs.Arguments.{all_arguments, argument_checks, after_claims, given_leaf, target_checks};
ghost use Rattle.rules.specs.Endpoints.{declared_leaf, is_wrong};
ghost use Rattle.rules.specs.Mentions.{is_lent};
ghost use Rattle.rules.specs.Outcomes.{breach_at, refuse_if};
ghost use Rattle.rules.specs.Repeats.{first_again};
ghost use Rattle.rules.specs.declared.breach.Reason.TheVariants as reasons;
ghost use Rattle.rows.specs.Leaves.{IsNumbered};
ghost use Rattle.rows.specs.Rows.{leaf_at, row_model};
ghost use Rattle.rules.specs.Checks.{AnswersCheck, StandsFor};
ghost use Rattle.rules.specs.Sites.{method_of, row_of};

use crate::breach::{Breach, Reason};
use crate::checks::{require_empty, require_none_again, require_not_lent, require_owned};
use crate::endpoints::{declared_leaf, is_wrong};
use crate::here::Here;
use program::{Argument, HeapType, Mention};
use rows::{Leaf, Row};

/// Checks that an argument is not lent if it is claimed.
fn require_claimable(here: &Here<'_>, argument: Argument) -> Result<(), Breach>
    ensures { AnswersCheck result (refuse_if
        (argument.claimed && is_lent (method_of here.now) argument.mention.variable.0)
        (breach_at argument.mention.place (reasons.Lent argument.mention.variable))) }
{
    if !argument.claimed {
        return Ok(());
    }
    require_not_lent(here, argument.mention)
}

/// Checks that what is given for a parameter of this type is in its state.
fn require_state(here: &Here<'_>, ty: HeapType, mention: Mention) -> Result<(), Breach>
    ensures { AnswersCheck result (refuse_if
        (is_wrong ty (leaf_at (row_of here.now) mention.variable.0))
        (breach_at mention.place (reasons.WrongForCall mention.variable))) }
{
    if !is_wrong(ty, here.row.leaf(mention.variable)) {
        return Ok(());
    }
    Err(Breach::at(mention.place, Reason::WrongForCall(mention.variable)))
}

/// Checks that an argument has something, is not lent if it is claimed, and is in the state that the parameter asks for.
fn require_argument(here: &Here<'_>, ty: HeapType, argument: Argument) -> Result<(), Breach>
    ensures { StandsFor result
        (argument_checks (method_of here.now) (row_of here.now) ty argument) }
{
    require_owned(here, argument.mention)?;
    require_claimable(here, argument)?;
    require_state(here, ty, argument.mention)
}

/// Checks the arguments for parameters of these types. `again` is the first argument that gives a variable again, if one does.
pub(crate) fn require_arguments(
    here: &Here<'_>,
    again: Option<Mention>,
    types: &[HeapType],
    arguments: &[Argument],
) -> Result<(), Breach>
    requires { again ≡ first_again [] arguments.now }
    ensures { StandsFor result
        (all_arguments (method_of here.now) (row_of here.now) types.now arguments.now) }
{
    require_none_again(here, again)?;
    for number in 0..types.len().min(arguments.len()) {
        require_argument(here, types[number], arguments[number])?;
    }
    Ok(())
}

/// Checks that the variable that takes a block, if there is one, is not lent and has nothing.
pub(crate) fn require_target(here: &Here<'_>, target: Option<Mention>) -> Result<(), Breach>
    ensures { StandsFor result
        (target_checks (method_of here.now) (row_of here.now) target) }
{
    let Some(target) = target else {
        return Ok(());
    };
    require_not_lent(here, target)?;
    require_empty(here, target)
}

/// Takes an argument away from its variable if it is claimed.
fn claim(row: &mut Row, argument: Argument)
    ensures { row_model row.new ≡ after_claims (row_model row.old) (argument ∷ []) }
{
    if argument.claimed {
        row.set(argument.mention.variable, Leaf::Nothing);
    }
}

/// Takes all claimed arguments away from their variables.
pub(crate) fn claim_all(row: &mut Row, arguments: &[Argument])
    ensures { row_model row.new ≡ after_claims (row_model row.old) arguments.now }
{
    for argument in arguments {
        claim(row, *argument);
    }
}

/// Gives the result of a method to the variable that takes it, if there is one.
pub(crate) fn give(row: &mut Row, ty: Option<HeapType>, target: Option<Mention>)
    requires numbered { IfSome ty (λ ty. IsNumbered (declared_leaf ty)) }
    ensures { row_model row.new ≡ given_leaf (row_model row.old) ty target }
{
    if let (Some(ty), Some(target)) = (ty, target) {
        row.set(target.variable, declared_leaf(ty));
    }
}
