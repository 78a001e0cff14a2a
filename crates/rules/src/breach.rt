//! Breaches: what the checks of the rule table find, in numbers.

ghost use Rattle.std.specs.Prelude.{◌≡◌};
ghost use Rattle.std.specs.Cmp.{partial_order_from_own_ties};
ghost use Rattle.std.specs.Cmp.Lexicographic.{slice_cmp};
ghost use Rattle.std.specs.Cmp.Rules.{comparing};
ghost use Rattle.std.specs.Ordering.{as_partial_cmp, eq_by_cmp, nat_cmp, on};
ghost use Rattle.std.proofs.Common.{rules};

use program::{MessageId, VarId};
use source::Place;
use std::cmp::Ordering;

/// What a check of the rule table found, in numbers: a place, and which check failed for what. `Program::finding` turns it into a
/// finding. Breaches are ordered by place.
#[derive(Clone, Copy, Debug, PartialEq, Eq, PartialOrd, Ord)]
pub struct Breach {
    pub place: Place,
    pub reason: Reason,
}

impl Breach {
    /// Returns the breach with this reason at this place.
    pub(crate) fn at(place: Place, reason: Reason) -> Breach
        ensures { result ≡ record { place = place; reason = reason } }
    {
        Breach { place, reason }
    }
}

/// Which check failed, and for what. Variables and messages are those of the method and its program.
#[derive(Clone, Copy, Debug)]
pub enum Reason {
    /// The variable has nothing.
    NotOwned(VarId),
    /// The state of the endpoint has no edge that sends the message.
    NotSent {
        endpoint: VarId,
        message: MessageId,
    },
    /// A payload of the message is not in the state that the message asks for.
    WrongFor {
        variable: VarId,
        endpoint: VarId,
        message: MessageId,
    },
    /// An argument is not in the state that the parameter asks for.
    WrongForCall(VarId),
    /// The endpoint may receive the message, and no case waits for it.
    NotCovered {
        endpoint: VarId,
        message: MessageId,
    },
    /// All endpoints of a switch are in a state in which they send.
    NothingToReceive,
    /// The variable takes something while it still has something.
    Overwritten(VarId),
    /// The variable still has something when it goes out of scope.
    StillOwned(VarId),
    /// A lent endpoint is not in the state in which it was lent.
    NotBack(VarId),
    /// A lent variable is given away or assigned.
    Lent(VarId),
    /// The variable is given away twice at once, or to itself.
    Twice(VarId),
    /// The result is not in the state that the method declares.
    WrongForResult(VarId),
    /// The method ends without the result that it declares.
    NoResult,
    /// What is given for a field is not in the state that the field asks for.
    WrongForField(VarId),
}

impl Reason {
    ghost use Rattle.rules.specs.Reasons.{numbers};

    /// Returns the numbers of the check, the variable, the endpoint and the message, with 0 for what the reason does not name.
    fn numbers(self) -> [usize; 4]
        ensures { result ≡ numbers self }
    {
        match self {
            Reason::NotOwned(variable) => [1, variable.0, 0, 0],
            Reason::NotSent { endpoint, message } => [2, 0, endpoint.0, message.0 as usize],
            Reason::WrongFor {
                variable,
                endpoint,
                message,
            } => [3, variable.0, endpoint.0, message.0 as usize],
            Reason::WrongForCall(variable) => [4, variable.0, 0, 0],
            Reason::NotCovered { endpoint, message } => [5, 0, endpoint.0, message.0 as usize],
            Reason::NothingToReceive => [6, 0, 0, 0],
            Reason::Overwritten(variable) => [7, variable.0, 0, 0],
            Reason::StillOwned(variable) => [8, variable.0, 0, 0],
            Reason::NotBack(variable) => [9, variable.0, 0, 0],
            Reason::Lent(variable) => [10, variable.0, 0, 0],
            Reason::Twice(variable) => [11, variable.0, 0, 0],
            Reason::WrongForResult(variable) => [12, variable.0, 0, 0],
            Reason::NoResult => [13, 0, 0, 0],
            Reason::WrongForField(variable) => [14, variable.0, 0, 0],
        }
    }
}

impl PartialEq for Reason {
    ghost use Rattle.rules.specs.Reasons.{reason_cmp};

    ghost eq = { eq_by_cmp reason_cmp };

    ghost laws = { Prim.search (comparing, rules) };

    fn eq(&self, other: &Reason) -> bool {
        self.cmp(other) == Ordering::Equal
    }
}

impl Eq for Reason {
    ghost laws = { Prim.search (comparing, rules) };
}

impl PartialOrd for Reason {
    ghost use Rattle.rules.specs.Reasons.{reason_cmp};

    ghost partial_cmp = { as_partial_cmp reason_cmp };

    ghost laws = { partial_order_from_own_ties (Prim.search (comparing, rules))
        (Prim.search (comparing, rules)) };

    fn partial_cmp(&self, other: &Reason) -> Option<Ordering> {
        Some(self.cmp(other))
    }
}

impl Ord for Reason {
    ghost use Rattle.rules.specs.Reasons.{reason_cmp};

    ghost cmp = { reason_cmp };

    ghost total = { Prim.search (comparing, rules) };

    ghost matches_partial_cmp = { Prim.search (comparing, rules) };

    ghost matches_eq = { Prim.search (comparing, rules) };

    fn cmp(&self, other: &Reason) -> Ordering {
        self.numbers().cmp(&other.numbers())
    }
}
