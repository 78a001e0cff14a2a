//! The findings about ownership in methods, one function for each.

ghost use Rattle.std.specs.Prelude.{◌≡◌, ◌++◌, IfOk, codes, string_bytes};
ghost use Rattle.std.specs.Str.Lossy.{utf8_lossy};
ghost use Rattle.source.specs.Findings.{IsFinding};

use super::{named, plain};
use crate::fault::Memory;
use crate::finding::{Code, Finding};
use crate::place::Place;
use std::alloc::Global;

/// Returns a name between two texts.
fn around(alloc: Global, front: &str, name: &[u8], back: &str) -> Result<String, Memory>
    ensures { IfOk result (λ text. string_bytes text ≡ front.now ++ (utf8_lossy name.now ++ back.now)) }
{
    let mut text = String::from_str(alloc, front)?;
    let name = String::from_utf8_lossy(alloc, name)?;
    text.push_str(name.as_str())?;
    text.push_str(back)?;
    Ok(text)
}

/// Reports a use of a variable that has nothing.
pub fn not_owned(alloc: Global, place: Place, variable: &[u8]) -> Result<Finding, Memory>
    ensures { IfOk result (IsFinding place Code.A01 (utf8_lossy variable.now ++ codes " not owned")) }
{
    named(alloc, place, Code::A01, variable, " not owned")
}

/// Reports a message that no edge from its endpoint's state sends.
pub fn not_sent_here(alloc: Global, place: Place, message: &[u8]) -> Result<Finding, Memory>
    ensures { IfOk result (IsFinding place Code.A02 (utf8_lossy message.now ++ codes " not sent here")) }
{
    named(alloc, place, Code::A02, message, " not sent here")
}

/// Reports an endpoint that is given with a message but is not in the state that the message requires.
pub fn in_a_wrong_state_for(
    alloc: Global,
    place: Place,
    variable: &[u8],
    message: &[u8],
) -> Result<Finding, Memory>
    ensures { IfOk result (IsFinding place Code.A03
        (utf8_lossy variable.now ++ (codes " in a wrong state for " ++ utf8_lossy message.now))) }
{
    let rest = around(alloc, " in a wrong state for ", message, "")?;
    named(alloc, place, Code::A03, variable, &rest)
}

/// Reports an endpoint that is given to a method but is not in the state that the method requires.
pub fn in_a_wrong_state_for_the_call(
    alloc: Global,
    place: Place,
    variable: &[u8],
) -> Result<Finding, Memory>
    ensures { IfOk result (IsFinding place Code.A04 (utf8_lossy variable.now ++ codes " in a wrong state for the call")) }
{
    named(
        alloc,
        place,
        Code::A04,
        variable,
        " in a wrong state for the call",
    )
}

/// Reports an endpoint that is given for a field of a block but is not in the state that the field requires.
pub fn in_a_wrong_state_for_the_field(
    alloc: Global,
    place: Place,
    variable: &[u8],
) -> Result<Finding, Memory>
    ensures { IfOk result (IsFinding place Code.A15 (utf8_lossy variable.now ++ codes " in a wrong state for the field")) }
{
    named(
        alloc,
        place,
        Code::A15,
        variable,
        " in a wrong state for the field",
    )
}

/// Reports a message that an endpoint may receive in a switch that has no case for it.
pub fn not_covered(
    alloc: Global,
    place: Place,
    endpoint: &[u8],
    message: &[u8],
) -> Result<Finding, Memory>
    ensures { IfOk result (IsFinding place Code.A05
        (utf8_lossy endpoint.now ++ (codes "." ++ (utf8_lossy message.now ++ codes " not covered")))) }
{
    let rest = around(alloc, ".", message, " not covered")?;
    named(alloc, place, Code::A05, endpoint, &rest)
}

/// Reports a switch at which every endpoint is to send.
pub fn nothing_to_receive(alloc: Global, place: Place) -> Result<Finding, Memory>
    ensures { IfOk result (IsFinding place Code.A06 (codes "nothing to receive")) }
{
    plain(alloc, place, Code::A06, "nothing to receive")
}

/// Reports a variable that is given something while it still has something.
pub fn overwritten(alloc: Global, place: Place, variable: &[u8]) -> Result<Finding, Memory>
    ensures { IfOk result (IsFinding place Code.A07 (utf8_lossy variable.now ++ codes " overwritten")) }
{
    named(alloc, place, Code::A07, variable, " overwritten")
}

/// Reports a variable that still has something when it goes out of scope.
pub fn still_owned(alloc: Global, place: Place, variable: &[u8]) -> Result<Finding, Memory>
    ensures { IfOk result (IsFinding place Code.A08 (utf8_lossy variable.now ++ codes " still owned")) }
{
    named(alloc, place, Code::A08, variable, " still owned")
}

/// Reports a lent endpoint that is not back in its state when the method ends.
pub fn not_back_in_its_state(
    alloc: Global,
    place: Place,
    variable: &[u8],
) -> Result<Finding, Memory>
    ensures { IfOk result (IsFinding place Code.A09 (utf8_lossy variable.now ++ codes " not back in its state")) }
{
    named(alloc, place, Code::A09, variable, " not back in its state")
}

/// Reports a lent parameter that is given away or assigned.
pub fn is_lent(alloc: Global, place: Place, variable: &[u8]) -> Result<Finding, Memory>
    ensures { IfOk result (IsFinding place Code.A10 (utf8_lossy variable.now ++ codes " is lent")) }
{
    named(alloc, place, Code::A10, variable, " is lent")
}

/// Reports a variable that is given away twice at once, or to itself.
pub fn given_twice(alloc: Global, place: Place, variable: &[u8]) -> Result<Finding, Memory>
    ensures { IfOk result (IsFinding place Code.A11 (utf8_lossy variable.now ++ codes " twice")) }
{
    named(alloc, place, Code::A11, variable, " twice")
}

/// Reports an endpoint that a method gives but that is not in the state of its result.
pub fn in_a_wrong_state_for_the_result(
    alloc: Global,
    place: Place,
    variable: &[u8],
) -> Result<Finding, Memory>
    ensures { IfOk result (IsFinding place Code.A12 (utf8_lossy variable.now ++ codes " in a wrong state for the result")) }
{
    named(
        alloc,
        place,
        Code::A12,
        variable,
        " in a wrong state for the result",
    )
}

/// Reports the end of a method that should have given something.
pub fn no_result(alloc: Global, place: Place) -> Result<Finding, Memory>
    ensures { IfOk result (IsFinding place Code.A13 (codes "no result")) }
{
    plain(alloc, place, Code::A13, "no result")
}

/// Reports a method with too many pairs of a point and a row, at its name.
pub fn too_many_pairs(alloc: Global, place: Place) -> Result<Finding, Memory>
    ensures { IfOk result (IsFinding place Code.A14 (codes "too many pairs")) }
{
    plain(alloc, place, Code::A14, "too many pairs")
}
