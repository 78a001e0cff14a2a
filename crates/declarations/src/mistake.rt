//! Mistakes in names and types, in numbers.

ghost use Rattle.std.specs.Prelude.{◌≡◌, IfOk, map};
ghost use Rattle.source.specs.Findings.{finding_model};
ghost use Rattle.declarations.specs.Mistakes.{finding_in, most_of};

use crate::value_type::ValueType;
use program::{
    MOST_CONTRACTS, MOST_FIELDS, MOST_METHODS, MOST_PARAMETERS, MOST_STATES, MOST_VARIABLES, Side,
};
use source::{Finding, Memory, Place, Span, texts};
use std::alloc::Global;

/// What is asked of a value, a variable or a field.
#[derive(Clone, Copy, Debug, PartialEq, Eq)]
pub enum Demand {
    /// This type.
    OfType(ValueType),
    /// `int` or `byte`.
    Number,
    /// `bool`.
    Truth,
    /// `int`, `byte` or `bool`.
    Scalar,
    /// A block of the exchange heap.
    Block,
    /// Anything but a block of the exchange heap.
    NoBlock,
    /// A pointer to a struct.
    Pointer,
    /// An array.
    Array,
    /// A pointer or an array, which have fields.
    Fields,
    /// An endpoint.
    Endpoint,
    /// An end of a channel of the contract that is this item.
    EndOf(usize),
}

/// Why a type is wrong.
#[derive(Clone, Copy, Debug, PartialEq, Eq)]
pub enum Mismatch {
    /// This was asked for, and something of that type was given; `Missing` if it has no type.
    Given(Demand, ValueType),
    /// `return` without a value, in a method that gives a value of this type.
    NoValue(ValueType),
    /// `return` with a value, in a method that gives none.
    ValueReturned,
    /// This end of a channel does not send the message of this word, which begins with `Send`.
    NotSent(Side, Span),
    /// This end of a channel does not receive the message of this name.
    NotReceived(Side, Span),
    /// A send is started.
    SendStarted,
    /// The length of an array is written.
    LengthWritten,
    /// An owning field is read or written instead of exchanged.
    FieldOwns,
}

/// What a program may have only a limited number of.
#[derive(Clone, Copy, Debug, PartialEq, Eq)]
pub enum Limit {
    /// Contracts of a program.
    Contracts,
    /// States of all contracts of a program.
    States,
    /// Parameters of a message.
    Parameters,
    /// Owning fields of a struct.
    Fields,
    /// Methods of a program.
    Methods,
    /// Variables of the exchange heap that a method declares.
    Variables,
}

impl Limit {
    /// Returns the greatest number allowed.
    pub fn most(self) -> usize
        ensures { result ≡ most_of self }
    {
        match self {
            Limit::Contracts => MOST_CONTRACTS,
            Limit::States => MOST_STATES,
            Limit::Parameters => MOST_PARAMETERS,
            Limit::Fields => MOST_FIELDS,
            Limit::Methods => MOST_METHODS,
            Limit::Variables => MOST_VARIABLES,
        }
    }
}

/// The sort of a name that nothing declares. An item is given by its index; `None` is the item around the name.
#[derive(Clone, Copy, Debug, PartialEq, Eq)]
pub enum NameSort {
    /// A variable, with this many variables in scope.
    Variable(usize),
    /// A variable or a class before a dot, with this many variables in scope.
    Front(usize),
    Contract,
    Struct,
    /// A method of the class of this name.
    Method(Option<Span>),
    /// A state of a contract.
    State(Option<usize>),
    /// A message of a contract.
    Message(Option<usize>),
    /// A message of a contract, after `Send`.
    Sent(usize),
    /// A field of a struct.
    Field(usize),
    /// The length of an array.
    Length,
}

/// A mistake in names or types: the data of a finding, and more.
#[derive(Clone, Copy, Debug, PartialEq, Eq)]
pub enum Mistake {
    /// A name that is declared before, first at this place.
    DeclaredTwice(Span, Place),
    /// A name of this sort that nothing declares.
    Unknown(Span, NameSort),
    /// A type is wrong at this place.
    WrongType(Place, Mismatch),
    /// The number of arguments is wrong at this place: first the number asked for, then the number given.
    WrongNumber(Place, usize, usize),
    /// A `break` outside a loop or switch.
    BreakOutside(Place),
    /// A `continue` outside a loop.
    ContinueOutside(Place),
    /// The first one past a limit, at this place.
    LimitPassed(Place, Limit),
    /// The method of this name cannot be started.
    NotStarted(Span),
    /// A case of a switch on this endpoint that awaits the same as an earlier case.
    CaseTwice(Span, Span),
    /// An endpoint that has cases in a switch, but none for its close.
    LacksClosed(Span),
}

impl Mistake {
    /// Returns the finding for a mistake in this text.
    ///
    /// # Errors
    /// `Memory` if an allocation fails.
    #[inline(always)]
    pub fn finding(self, alloc: Global, text: &[u8]) -> Result<Finding, Memory>
        ensures { IfOk result (λ finding. finding_model finding ≡ finding_in text.now self) }
    {
        match self {
            Mistake::DeclaredTwice(name, _) => {
                texts::declared_twice(alloc, name.place, name.slice(text))
            }
            Mistake::Unknown(name, _) => texts::unknown(alloc, name.place, name.slice(text)),
            Mistake::WrongType(place, _) => texts::wrong_type(alloc, place),
            Mistake::WrongNumber(place, _, _) => texts::wrong_number_of_arguments(alloc, place),
            Mistake::BreakOutside(place) => texts::break_outside(alloc, place),
            Mistake::ContinueOutside(place) => texts::continue_outside(alloc, place),
            Mistake::LimitPassed(place, _) => texts::limit_passed(alloc, place),
            Mistake::NotStarted(name) => {
                texts::cannot_be_started(alloc, name.place, name.slice(text))
            }
            Mistake::CaseTwice(endpoint, awaited) => {
                texts::case_twice(
                    alloc,
                    endpoint.place,
                    endpoint.slice(text),
                    awaited.slice(text),
                )
            }
            Mistake::LacksClosed(name) => {
                texts::lacks_closed(alloc, name.place, name.slice(text))
            }
        }
    }
}

/// Returns the findings for these mistakes in this text, in the same order.
///
/// # Errors
/// `Memory` if an allocation fails.
pub fn findings_of(alloc: Global, text: &[u8], mistakes: &[Mistake]) -> Result<Vec<Finding>, Memory>
    ensures { IfOk result (λ found. map finding_model found.items ≡ map (finding_in text.now) mistakes.now) }
{
    let mut found = Vec::with_capacity(alloc, mistakes.len())?;
    for mistake in mistakes {
        found.push(mistake.finding(alloc, text)?)?;
    }
    Ok(found)
}
