//! The code and the text of each finding, one function for each.
//!
//! Each function takes the place of the finding, unless that is fixed, and the names that its text contains. In a
//! name that is not UTF-8, U+FFFD replaces what is not. The only error is `Memory`, if an allocation was refused.

ghost use Rattle.std.specs.Prelude.{◌≡◌, ◌++◌, ◌∷◌, [], IfOk, OnOk, codes, string_bytes};
ghost use Rattle.std.specs.Option.{option_map_or};
ghost use Rattle.std.specs.Str.Lossy.{utf8_lossy};
ghost use Rattle.source.specs.Findings.{IsFinding, fault_findings, finding_model};
ghost use Rattle.source.specs.Places.{first_place};

mod ownership;

use crate::fault::{Memory, TextFault};
use crate::finding::{Code, Finding};
use crate::place::{self, Place};
pub use ownership::{
    given_twice, in_a_wrong_state_for, in_a_wrong_state_for_the_call,
    in_a_wrong_state_for_the_field, in_a_wrong_state_for_the_result, is_lent, no_result,
    not_back_in_its_state, not_covered, not_owned, not_sent_here, nothing_to_receive, overwritten,
    still_owned, too_many_pairs,
};
use std::alloc::Global;
use std::str;

/// Returns a finding with this text.
fn plain(alloc: Global, place: Place, code: Code, text: &str) -> Result<Finding, Memory>
    ensures { IfOk result (IsFinding place code text.now) }
{
    let text = String::from_str(alloc, text)?;
    Ok(Finding { place, code, text })
}

/// Appends a name as it is printed. A UTF-8 name is appended without a text of its own.
///
/// # Errors
/// `Memory` if an allocation was refused; the text may have grown then.
pub fn push_name(alloc: Global, text: &mut String, name: &[u8]) -> Result<(), Memory>
    ensures { OnOk result (string_bytes text.new ≡ string_bytes text.old ++ utf8_lossy name.now) }
{
    match str::from_utf8(name) {
        Ok(name) => text.push_str(name)?,
        Err(_) => text.push_str(String::from_utf8_lossy(alloc, name)?.as_str())?,
    }
    Ok(())
}

/// Returns a finding whose text begins with a name.
fn named(
    alloc: Global,
    place: Place,
    code: Code,
    name: &[u8],
    rest: &str,
) -> Result<Finding, Memory>
    ensures { IfOk result (IsFinding place code (utf8_lossy name.now ++ rest.now)) }
{
    let mut text = String::with_capacity(alloc, name.len() + rest.len())?;
    push_name(alloc, &mut text, name)?;
    text.push_str(rest)?;
    Ok(Finding { place, code, text })
}

/// Returns a finding whose text ends with a name.
fn naming(
    alloc: Global,
    place: Place,
    code: Code,
    front: &str,
    name: &[u8],
) -> Result<Finding, Memory>
    ensures { IfOk result (IsFinding place code (front.now ++ utf8_lossy name.now)) }
{
    let mut text = String::with_capacity(alloc, front.len() + name.len())?;
    text.push_str(front)?;
    push_name(alloc, &mut text, name)?;
    Ok(Finding { place, code, text })
}

/// Reports a byte that begins no blank, comment or token.
pub fn stray_byte(alloc: Global, place: Place) -> Result<Finding, Memory>
    ensures { IfOk result (IsFinding place Code.S01 (codes "stray byte")) }
{
    plain(alloc, place, Code::S01, "stray byte")
}

/// Reports a comment that does not end, at its `/*`.
pub fn comment_not_closed(alloc: Global, place: Place) -> Result<Finding, Memory>
    ensures { IfOk result (IsFinding place Code.S02 (codes "comment not closed")) }
{
    plain(alloc, place, Code::S02, "comment not closed")
}

/// Reports a text of more than the greatest length, at its first byte.
pub fn text_too_long(alloc: Global) -> Result<Finding, Memory>
    ensures { IfOk result (IsFinding first_place Code.S03 (codes "text too long")) }
{
    plain(alloc, place::START, Code::S03, "text too long")
}

/// Reports a bracket with which too many are open.
pub fn brackets_too_deep(alloc: Global, place: Place) -> Result<Finding, Memory>
    ensures { IfOk result (IsFinding place Code.S04 (codes "brackets too deep")) }
{
    plain(alloc, place, Code::S04, "brackets too deep")
}

/// Reports a token with which no program continues.
pub fn unexpected_token(alloc: Global, place: Place) -> Result<Finding, Memory>
    ensures { IfOk result (IsFinding place Code.S05 (codes "unexpected token")) }
{
    plain(alloc, place, Code::S05, "unexpected token")
}

/// Reports the end of a text that is not a whole program, at the place after its last byte.
pub fn unexpected_end(alloc: Global, place: Place) -> Result<Finding, Memory>
    ensures { IfOk result (IsFinding place Code.S05 (codes "unexpected end")) }
{
    plain(alloc, place, Code::S05, "unexpected end")
}

/// Reports a number above the greatest one allowed.
pub fn number_too_large(alloc: Global, place: Place) -> Result<Finding, Memory>
    ensures { IfOk result (IsFinding place Code.S06 (codes "number too large")) }
{
    plain(alloc, place, Code::S06, "number too large")
}

/// Reports a name that is already declared, at the later declaration.
pub fn declared_twice(alloc: Global, place: Place, name: &[u8]) -> Result<Finding, Memory>
    ensures { IfOk result (IsFinding place Code.N01 (utf8_lossy name.now ++ codes " declared twice")) }
{
    named(alloc, place, Code::N01, name, " declared twice")
}

/// Reports a name that nothing declares.
pub fn unknown(alloc: Global, place: Place, name: &[u8]) -> Result<Finding, Memory>
    ensures { IfOk result (IsFinding place Code.N02 (utf8_lossy name.now ++ codes " unknown")) }
{
    named(alloc, place, Code::N02, name, " unknown")
}

/// Reports an expression, a variable or a message of another kind than required.
pub fn wrong_type(alloc: Global, place: Place) -> Result<Finding, Memory>
    ensures { IfOk result (IsFinding place Code.N03 (codes "wrong type")) }
{
    plain(alloc, place, Code::N03, "wrong type")
}

/// Reports more or fewer arguments than there are parameters.
pub fn wrong_number_of_arguments(alloc: Global, place: Place) -> Result<Finding, Memory>
    ensures { IfOk result (IsFinding place Code.N04 (codes "wrong number of arguments")) }
{
    plain(alloc, place, Code::N04, "wrong number of arguments")
}

/// Reports a `break` that is in no loop or switch.
pub fn break_outside(alloc: Global, place: Place) -> Result<Finding, Memory>
    ensures { IfOk result (IsFinding place Code.N05 (codes "break outside")) }
{
    plain(alloc, place, Code::N05, "break outside")
}

/// Reports a `continue` that is in no loop.
pub fn continue_outside(alloc: Global, place: Place) -> Result<Finding, Memory>
    ensures { IfOk result (IsFinding place Code.N05 (codes "continue outside")) }
{
    plain(alloc, place, Code::N05, "continue outside")
}

/// Reports one more of something than is allowed.
pub fn limit_passed(alloc: Global, place: Place) -> Result<Finding, Memory>
    ensures { IfOk result (IsFinding place Code.N06 (codes "limit passed")) }
{
    plain(alloc, place, Code::N06, "limit passed")
}

/// Reports a method that cannot be started.
pub fn cannot_be_started(alloc: Global, place: Place, method: &[u8]) -> Result<Finding, Memory>
    ensures { IfOk result (IsFinding place Code.N07 (utf8_lossy method.now ++ codes " cannot be started")) }
{
    named(alloc, place, Code::N07, method, " cannot be started")
}

/// Reports a case on an endpoint and a message that an earlier case of the switch has.
pub fn case_twice(
    alloc: Global,
    place: Place,
    endpoint: &[u8],
    message: &[u8],
) -> Result<Finding, Memory>
    ensures { IfOk result (IsFinding place Code.N08
        (codes "case " ++ (utf8_lossy endpoint.now ++ (codes "." ++ (utf8_lossy message.now ++ codes " twice"))))) }
{
    let mut text = String::from_str(alloc, "case ")?;
    text.push_str(String::from_utf8_lossy(alloc, endpoint)?.as_str())?;
    text.push_str(".")?;
    text.push_str(String::from_utf8_lossy(alloc, message)?.as_str())?;
    text.push_str(" twice")?;
    Ok(Finding {
        place,
        code: Code::N08,
        text,
    })
}

/// Reports an endpoint of a switch that has no case for the close of its channel.
pub fn lacks_closed(alloc: Global, place: Place, endpoint: &[u8]) -> Result<Finding, Memory>
    ensures { IfOk result (IsFinding place Code.N09 (utf8_lossy endpoint.now ++ codes " lacks ChannelClosed")) }
{
    named(alloc, place, Code::N09, endpoint, " lacks ChannelClosed")
}

/// Reports an edge whose sign is against the direction of its message.
pub fn against_its_direction(alloc: Global, place: Place, message: &[u8]) -> Result<Finding, Memory>
    ensures { IfOk result (IsFinding place Code.C01 (utf8_lossy message.now ++ codes " against its direction")) }
{
    named(alloc, place, Code::C01, message, " against its direction")
}

/// Reports a message for which a state already has an edge.
pub fn twice_in_a_state(alloc: Global, place: Place, message: &[u8]) -> Result<Finding, Memory>
    ensures { IfOk result (IsFinding place Code.C02 (utf8_lossy message.now ++ codes " twice in a state")) }
{
    named(alloc, place, Code::C02, message, " twice in a state")
}

/// Reports a state in which either end may send.
pub fn both_directions_in(alloc: Global, place: Place, state: &[u8]) -> Result<Finding, Memory>
    ensures { IfOk result (IsFinding place Code.C03 (codes "both directions in " ++ utf8_lossy state.now)) }
{
    naming(alloc, place, Code::C03, "both directions in ", state)
}

/// Reports a state on a ring on which only one end sends.
pub fn one_direction_round(alloc: Global, place: Place, state: &[u8]) -> Result<Finding, Memory>
    ensures { IfOk result (IsFinding place Code.C04 (codes "one direction round " ++ utf8_lossy state.now)) }
{
    naming(alloc, place, Code::C04, "one direction round ", state)
}

/// Returns the finding for a fault of a text, or `None` for `Memory`, which is no fault of the text.
pub fn finding_of(alloc: Global, fault: TextFault) -> Result<Option<Finding>, Memory>
    ensures { IfOk result (λ found. option_map_or (λ f. finding_model f ∷ []) found [] ≡ fault_findings fault) }
{
    let finding = match fault {
        TextFault::Stray(place) => stray_byte(alloc, place)?,
        TextFault::OpenComment(place) => comment_not_closed(alloc, place)?,
        TextFault::TooLong => text_too_long(alloc)?,
        TextFault::TooDeep(place) => brackets_too_deep(alloc, place)?,
        TextFault::TooLarge(place) => number_too_large(alloc, place)?,
        TextFault::Memory => return Ok(None),
    };
    Ok(Some(finding))
}
