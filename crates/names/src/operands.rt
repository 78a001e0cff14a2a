//! Operands: what is asked of them, and what operators make of them.

ghost use Rattle.std.specs.Prelude.{◌≡◌, ◌||◌, IfOk, OnOk, ◌∷◌, [], if◌then◌else◌};
ghost use Rattle.declarations.specs.Mistakes.{Adds};
ghost use Rattle.declarations.specs.Types.{unless, is_unknown};
ghost use Rattle.names.specs.Expressions.{asked_number, asked_truth, asked_either, asked_like};
ghost use Rattle.names.specs.Expressions.{left_asked, right_asked, joined_type, signed_type, sign_asked};
ghost use Rattle.names.specs.Operands.{IsJoined, IsSigned};

use declarations::{Demand, Mismatch, Mistake, ValueType};
use program::Scalar;
use source::{Memory, Place};
use tree::{Prefix, PrefixOperator};

/// The type of an expression, and where it begins.
#[derive(Clone, Copy)]
pub(crate) struct Operand {
    pub(crate) ty: ValueType,
    pub(crate) place: Place,
}

impl Operand {
    /// Returns a number at this place.
    pub(crate) fn number(place: Place) -> Operand
        ensures { result ≡ record { ty = ValueType.Scalar Scalar.Int; place = place } }
    {
        Operand {
            ty: ValueType::Scalar(Scalar::Int),
            place,
        }
    }

    /// Returns a truth value at this place.
    pub(crate) fn truth(place: Place) -> Operand
        ensures { result ≡ record { ty = ValueType.Scalar Scalar.Bool; place = place } }
    {
        Operand {
            ty: ValueType::Scalar(Scalar::Bool),
            place,
        }
    }
}

/// Operators between two operands: `&&` and `||`; `==` and `!=`; `<`, `<=`, `>` and `>=`; `+`, `-` and `*`.
#[derive(Clone, Copy, PartialEq, Eq)]
pub(crate) enum Joint {
    Logic,
    Likeness,
    Order,
    Sum,
}

/// Adds a wrong type.
#[cold]
pub(crate) fn add_wrong_type(
    place: Place,
    mismatch: Mismatch,
    found: &mut Vec<Mistake>,
) -> Result<(), Memory>
    ensures { OnOk result (Adds found.old.items found.new.items (Mistake.WrongType place mismatch ∷ [])) }
{
    found.push(Mistake::WrongType(place, mismatch))?;
    Ok(())
}

/// Adds a wrong type unless `well`.
// Inlined, so that a mismatch is built only if something is wrong.
#[inline(always)]
pub(crate) fn ask(
    well: bool,
    place: Place,
    mismatch: Mismatch,
    found: &mut Vec<Mistake>,
) -> Result<(), Memory>
    ensures { OnOk result (Adds found.old.items found.new.items (unless well place mismatch)) }
{
    if well {
        return Ok(());
    }
    add_wrong_type(place, mismatch, found)
}

/// Asks for a number.
pub(crate) fn ask_number(
    ty: ValueType,
    place: Place,
    found: &mut Vec<Mistake>,
) -> Result<(), Memory>
    ensures { OnOk result (Adds found.old.items found.new.items (asked_number ty place)) }
{
    if ty.is_silent() || ty.is_number() {
        return Ok(());
    }
    add_wrong_type(place, Mismatch::Given(Demand::Number, ty), found)
}

/// Asks for a truth value.
pub(crate) fn ask_truth(ty: ValueType, place: Place, found: &mut Vec<Mistake>) -> Result<(), Memory>
    ensures { OnOk result (Adds found.old.items found.new.items (asked_truth ty place)) }
{
    if ty.is_silent() || ty.is_truth() {
        return Ok(());
    }
    add_wrong_type(place, Mismatch::Given(Demand::Truth, ty), found)
}

/// Asks for a number or a truth value.
fn ask_either(ty: ValueType, place: Place, found: &mut Vec<Mistake>) -> Result<(), Memory>
    ensures { OnOk result (Adds found.old.items found.new.items (asked_either ty place)) }
{
    if ty.is_silent() || ty.is_number() || ty.is_truth() {
        return Ok(());
    }
    add_wrong_type(place, Mismatch::Given(Demand::Scalar, ty), found)
}

/// Asks for something that can be compared with the left operand.
fn ask_like(
    left: ValueType,
    ty: ValueType,
    place: Place,
    found: &mut Vec<Mistake>,
) -> Result<(), Memory>
    ensures { OnOk result (Adds found.old.items found.new.items (asked_like left ty place)) }
{
    if left.is_number() {
        return ask_number(ty, place, found);
    }
    if left.is_truth() {
        return ask_truth(ty, place, found);
    }
    ask_either(ty, place, found)
}

/// Asks of a left operand what its operator demands.
fn ask_left(joint: Joint, left: Operand, found: &mut Vec<Mistake>) -> Result<(), Memory>
    ensures { OnOk result (Adds found.old.items found.new.items (left_asked joint left.ty left.place)) }
{
    match joint {
        Joint::Logic => ask_truth(left.ty, left.place, found),
        Joint::Likeness => ask_either(left.ty, left.place, found),
        Joint::Order => ask_number(left.ty, left.place, found),
        Joint::Sum => ask_number(left.ty, left.place, found),
    }
}

/// Asks of a right operand what its operator demands.
fn ask_right(
    joint: Joint,
    left: ValueType,
    right: Operand,
    found: &mut Vec<Mistake>,
) -> Result<(), Memory>
    ensures { OnOk result (Adds found.old.items found.new.items (right_asked joint left right.ty right.place)) }
{
    match joint {
        Joint::Logic => ask_truth(right.ty, right.place, found),
        Joint::Likeness => ask_like(left, right.ty, right.place, found),
        Joint::Order => ask_number(right.ty, right.place, found),
        Joint::Sum => ask_number(right.ty, right.place, found),
    }
}

/// Returns the type of two operands that are joined.
fn type_joined(joint: Joint, left: ValueType, right: ValueType) -> ValueType
    ensures { result ≡ (if is_unknown left || is_unknown right then ValueType.Unknown else joined_type joint) }
{
    if left.is_unknown() || right.is_unknown() {
        return ValueType::Unknown;
    }
    match joint {
        Joint::Logic | Joint::Likeness | Joint::Order => ValueType::Scalar(Scalar::Bool),
        Joint::Sum => ValueType::Scalar(Scalar::Int),
    }
}

/// Returns two operands joined; adds the mistakes in that.
#[inline(always)]
pub(crate) fn join(
    joint: Joint,
    left: Operand,
    right: Operand,
    found: &mut Vec<Mistake>,
) -> Result<Operand, Memory>
    ensures { IfOk result (IsJoined joint left right found.old.items found.new.items) }
{
    ask_left(joint, left, found)?;
    ask_right(joint, left.ty, right, found)?;
    Ok(Operand {
        ty: type_joined(joint, left.ty, right.ty),
        place: left.place,
    })
}

/// Asks of an operand what the sign before it demands.
fn ask_signed(
    operator: PrefixOperator,
    inner: Operand,
    found: &mut Vec<Mistake>,
) -> Result<(), Memory>
    ensures { OnOk result (Adds found.old.items found.new.items (sign_asked operator inner.ty inner.place)) }
{
    match operator {
        PrefixOperator::Not => ask_truth(inner.ty, inner.place, found),
        PrefixOperator::Negate => ask_number(inner.ty, inner.place, found),
    }
}

/// Returns the type of an operand with a sign before it.
fn type_signed(operator: PrefixOperator, inner: ValueType) -> ValueType
    ensures { result ≡ (if is_unknown inner then ValueType.Unknown else signed_type operator) }
{
    if inner.is_unknown() {
        return ValueType::Unknown;
    }
    match operator {
        PrefixOperator::Not => ValueType::Scalar(Scalar::Bool),
        PrefixOperator::Negate => ValueType::Scalar(Scalar::Int),
    }
}

/// Returns an operand with a sign before it; adds the mistakes in that.
pub(crate) fn sign(
    prefix: Prefix,
    inner: Operand,
    found: &mut Vec<Mistake>,
) -> Result<Operand, Memory>
    ensures { IfOk result (IsSigned prefix.operator prefix.span.place inner found.old.items found.new.items) }
{
    ask_signed(prefix.operator, inner, found)?;
    Ok(Operand {
        ty: type_signed(prefix.operator, inner.ty),
        place: prefix.span.place,
    })
}
