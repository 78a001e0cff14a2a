//! The rule table's line for a return.

ghost use Rattle.std.specs.Prelude.{◌≡◌, ◌&&◌, false};
ghost use Rattle.std.specs.Option.{option_map_or};
ghost use Rattle.flow.specs.Graphs as graphs;
ghost use Rattle.program.specs.Methods.{method_model};
ghost use Rattle.rules.specs.Endpoints as endpoints;
ghost use Rattle.rules.specs.Mentions as mentions;
ghost use Rattle.rules.specs.Outcomes.{breach_at, refuse_if};
ghost use Rattle.rules.specs.declared.breach.Reason.TheVariants as reasons;
ghost use Rattle.rows.specs.Rows.{leaf_at};
ghost use Rattle.rules.specs.RuleTable as table;
ghost use Rattle.rules.specs.RuleTable.{back_checks, value_checks};
ghost use Rattle.rules.specs.Checks.{AnswersCheck, StandsFor};
ghost use Rattle.rules.specs.Sites.{FollowsHere, method_of, program_of, row_of};

use crate::breach::{Breach, Reason};
use crate::checks::{is_lent_role, require_not_lent, require_owned};
use crate::endpoints::is_wrong;
use crate::here::Here;
use crate::onward::Onward;
use crate::scopes::require_given_back;
use flow::Returning;
use program::{Mention, Method, VarId};
use rows::Leaf;
use source::Place;

/// Applies a return. What is returned must be the method's own and in the state of the result, the other variables in scope that are
/// not lent must have nothing, and each lent endpoint must be cut off or back in its state.
pub(crate) fn return_(here: &Here<'_>, returning: Returning) -> Result<Onward, Breach>
    ensures { FollowsHere here.now
        (graphs.Return returning.place returning.value returning.scope) result }
{
    let Returning {
        place,
        value,
        scope,
    } = returning;
    require_value(here, value)?;
    require_given_back(here, place, value, None, scope)?;
    require_back(here, place)?;
    Ok(Onward::Ends)
}

/// Checks that the returned value is in the state of the result.
fn require_state(here: &Here<'_>, value: Mention) -> Result<(), Breach>
    ensures { AnswersCheck result (refuse_if
        (option_map_or (λ ty. endpoints.is_wrong ty (leaf_at (row_of here.now) value.variable.0))
        (method_of here.now).result false)
        (breach_at value.place (reasons.WrongForResult value.variable))) }
{
    let Some(ty) = here.site.method.result else {
        return Ok(());
    };
    if !is_wrong(ty, here.row.leaf(value.variable)) {
        return Ok(());
    }
    Err(Breach::at(value.place, Reason::WrongForResult(value.variable)))
}

/// Checks that the returned value, if it is of the exchange heap, is not lent, has something, and is in the state of the result.
fn require_value(here: &Here<'_>, value: Option<Mention>) -> Result<(), Breach>
    ensures { StandsFor result
        (value_checks (program_of here.now) (method_of here.now) (row_of here.now) value) }
{
    let Some(value) = value else {
        return Ok(());
    };
    require_not_lent(here, value)?;
    require_owned(here, value)?;
    require_state(here, value)
}

/// Returns whether an endpoint was lent and is neither cut off nor in its declared state. Looks up the variable only if it has an
/// endpoint in some state.
fn is_not_back(here: &Here<'_>, variable: VarId) -> bool
    ensures { result
        ≡ table.is_not_back (program_of here.now) (method_of here.now) (row_of here.now) variable.0 }
{
    match here.row.leaf(variable) {
        Leaf::State(state) => is_lent_elsewhere(here.site.method, variable, state),
        Leaf::Nothing | Leaf::Block | Leaf::CutOff => false,
    }
}

/// Returns whether a variable is a lent endpoint with another declared state than this.
fn is_lent_elsewhere(method: &Method, variable: VarId, state: u32) -> bool
    ensures { result ≡ (mentions.is_lent (method_model method.now) variable.0
        && option_map_or (λ ty. endpoints.is_wrong ty (Leaf.State state))
        (endpoints.type_of (method_model method.now) variable.0) false) }
{
    match method.variables.get(variable.0) {
        Some(found) => is_lent_role(found.role) && is_wrong(found.ty, Leaf::State(state)),
        None => false,
    }
}

/// Checks that each lent endpoint is cut off, or back in its state.
fn require_back(here: &Here<'_>, place: Place) -> Result<(), Breach>
    ensures { StandsFor result
        (back_checks (program_of here.now) (method_of here.now) (row_of here.now) place) }
{
    for variable in 0..here.site.method.variables.len() {
        if is_not_back(here, VarId(variable)) {
            return Err(Breach::at(place, Reason::NotBack(VarId(variable))));
        }
    }
    Ok(())
}
