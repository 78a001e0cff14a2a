//! Words that contain no name of the text.

ghost use Rattle.std.specs.Prelude.{◌≡◌};
ghost use Rattle.remarks.specs.TypeWords.{scalar_words};
ghost use Rattle.remarks.specs.Remarks.{front_words, limit_back, limit_front, side_words};

use declarations::{Limit, NameSort};
use program::{Scalar, Side};

/// Returns a scalar type as it is written.
pub(crate) fn scalar_words(scalar: Scalar) -> &'static str
    ensures { result.now ≡ scalar_words scalar }
{
    match scalar {
        Scalar::Int => "int",
        Scalar::Byte => "byte",
        Scalar::Bool => "bool",
    }
}

/// Returns an end of a channel as a person reads it.
pub(crate) fn side_words(side: Side) -> &'static str
    ensures { result.now ≡ side_words side }
{
    match side {
        Side::Imp => "the importer",
        Side::Exp => "the exporter",
    }
}

/// Returns what has a limit: the words before its number.
pub(crate) fn limit_front(limit: Limit) -> &'static str
    ensures { result.now ≡ limit_front limit }
{
    match limit {
        Limit::Parameters => "a message may have at most ",
        Limit::Fields => "a struct may have at most ",
        Limit::Variables => "a method may have at most ",
        _ => "a program may have at most ",
    }
}

/// Returns what is limited: the words after the number.
pub(crate) fn limit_back(limit: Limit) -> &'static str
    ensures { result.now ≡ limit_back limit }
{
    match limit {
        Limit::Contracts => " contracts",
        Limit::States => " states",
        Limit::Parameters => " parameters",
        Limit::Fields => " owning fields",
        Limit::Methods => " methods",
        Limit::Variables => " variables of the exchange heap",
    }
}

/// Returns what is written before a name of this sort when it is used.
pub(crate) fn front_words(sort: NameSort) -> &'static str
    ensures { result.now ≡ front_words sort }
{
    match sort {
        NameSort::Sent(_) => "Send",
        _ => "",
    }
}
