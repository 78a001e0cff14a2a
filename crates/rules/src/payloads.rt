//! The checks of what goes into a message or into the fields of a block, and the row after them. Payloads are few, so each is compared
//! with those before it.

ghost use Rattle.std.specs.Prelude.{◌≡◌, ◌==◌, ◌||◌, map};
ghost use Rattle.std.specs.List.{list_any};
ghost use Rattle.program.specs.Lists.{is_among};
ghost use Rattle.rules.specs.Arguments.{all_taken, after_claims, payload, taken_checks};
ghost use Rattle.rules.specs.Endpoints.{is_wrong};
ghost use Rattle.rules.specs.Outcomes.{breach_at, refuse_if};
ghost use Rattle.rules.specs.Repeats.{first_again};
ghost use Rattle.rows.specs.Rows.{leaf_at, row_model};
ghost use Rattle.rules.specs.Takers.{besides, wrong_in};
ghost use Rattle.rules.specs.Checks.{AnswersCheck, StandsFor};
ghost use Rattle.rules.specs.Sites.{method_of, row_of};

use crate::breach::{Breach, Reason};
use crate::checks::{require_none_again, require_not_lent, require_owned};
use crate::endpoints::is_wrong;
use crate::here::Here;
use program::{HeapType, Mention, MessageId, VarId};
use rows::{Leaf, Row};

/// What takes a payload for good.
#[derive(Clone, Copy)]
pub(crate) enum Taker {
    /// A message that is sent along an endpoint.
    Message {
        endpoint: Mention,
        message: MessageId,
    },
    /// A field of a block.
    Field,
}

impl Taker {
    /// Returns whether this taker cannot take the variable.
    fn is_besides(self, variable: VarId) -> bool
        ensures { result ≡ is_among (besides self) variable.0 }
    {
        match self {
            Taker::Message { endpoint, .. } => endpoint.variable.0 == variable.0,
            Taker::Field => false,
        }
    }

    /// Returns the reason of the breach if the variable is in a wrong state for this taker.
    fn wrong_state(self, variable: VarId) -> Reason
        ensures { result ≡ wrong_in self variable }
    {
        match self {
            Taker::Message { endpoint, message } => {
                let endpoint = endpoint.variable;
                Reason::WrongFor {
                    variable,
                    endpoint,
                    message,
                }
            }
            Taker::Field => Reason::WrongForField(variable),
        }
    }
}

/// Returns whether one of these payloads is this variable.
fn is_among(payloads: &[Mention], variable: VarId) -> bool
    ensures { result ≡ list_any (λ x. x.variable.0 == variable.0) payloads.now }
{
    payloads.iter().any(|x| x.variable.0 == variable.0)
}

/// Returns whether the taker cannot take a variable, or the variable is one of these payloads.
fn is_taken(taker: Taker, payloads: &[Mention], variable: VarId) -> bool
    ensures { result ≡ (is_among (besides taker) variable.0
        || list_any (λ x. x.variable.0 == variable.0) payloads.now) }
{
    taker.is_besides(variable) || is_among(payloads, variable)
}

/// Returns the first payload whose variable the taker cannot take, or is an earlier payload too.
fn first_again(taker: Taker, payloads: &[Mention]) -> Option<Mention>
    ensures { result ≡ first_again (besides taker) (map payload payloads.now) }
{
    for (number, mention) in payloads.iter().enumerate() {
        if is_taken(taker, &payloads[..number], mention.variable) {
            return Some(*mention);
        }
    }
    None
}

/// Checks that a payload is in the state that this type asks for.
fn require_state(
    here: &Here<'_>,
    taker: Taker,
    ty: HeapType,
    mention: Mention,
) -> Result<(), Breach>
    ensures { AnswersCheck result (refuse_if
        (is_wrong ty (leaf_at (row_of here.now) mention.variable.0))
        (breach_at mention.place (wrong_in taker mention.variable))) }
{
    if !is_wrong(ty, here.row.leaf(mention.variable)) {
        return Ok(());
    }
    let reason = taker.wrong_state(mention.variable);
    Err(Breach::at(mention.place, reason))
}

/// Checks that a payload is not lent, has something, and is in the state that is asked for.
pub(crate) fn require_payload(
    here: &Here<'_>,
    taker: Taker,
    ty: HeapType,
    mention: Mention,
) -> Result<(), Breach>
    ensures { StandsFor result
        (taken_checks (method_of here.now) (row_of here.now)
        (wrong_in taker) ty (payload mention)) }
{
    require_not_lent(here, mention)?;
    require_owned(here, mention)?;
    require_state(here, taker, ty, mention)
}

/// Checks all payloads that a taker takes at once, for these types.
pub(crate) fn require_payloads(
    here: &Here<'_>,
    taker: Taker,
    types: &[HeapType],
    payloads: &[Mention],
) -> Result<(), Breach>
    ensures { StandsFor result
        (all_taken (method_of here.now) (besides taker) (row_of here.now)
        (wrong_in taker) types.now
        (map payload payloads.now)) }
{
    let again = first_again(taker, payloads);
    require_none_again(here, again)?;
    for number in 0..types.len().min(payloads.len()) {
        let (ty, given) = (types[number], payloads[number]);
        require_payload(here, taker, ty, given)?;
    }
    Ok(())
}

/// Takes the payloads away from their variables.
pub(crate) fn claim_payloads(row: &mut Row, payloads: &[Mention])
    ensures { row_model row.new ≡ after_claims (row_model row.old) (map payload payloads.now) }
{
    for mention in payloads {
        row.set(mention.variable, Leaf::Nothing);
    }
}
