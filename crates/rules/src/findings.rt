//! The finding of a breach.

ghost use Rattle.std.specs.Prelude.{◌≡◌, ◌<◌, IfOk, length};
ghost use Rattle.source.specs.Findings.{finding_model};
ghost use Rattle.program.specs.Methods.{method_model};
ghost use Rattle.rules.specs.Breaches as table;
ghost use Rattle.rules.specs.Breaches.{breach_in, breach_model};
ghost use Rattle.rules.specs.Programs.{model_of};

use crate::breach::{Breach, Reason};
use crate::checks::name_of;
use crate::endpoints::type_of;
use crate::lowered::Program;
use program::{MessageId, Method, MethodId, VarId};
use source::{Finding, Memory, texts};
use std::alloc::Global;

impl Program {
    /// Returns the finding of a breach in a method, with the names of the variables and of the message that it names.
    ///
    /// # Errors
    /// `Memory` if out of memory.
    pub fn finding(
        &self,
        alloc: Global,
        method: MethodId,
        breach: Breach,
    ) -> Result<Finding, Memory>
        requires there { method.0 < length (model_of self.now).methods }
        ensures { IfOk result (λ finding. finding_model finding ≡ breach_in (model_of self.now) method.0 breach) }
    {
        self.finding_in(alloc, self.method(method), breach)
    }

    /// Returns the same finding, for the method itself.
    fn finding_in(&self, alloc: Global, method: &Method, breach: Breach) -> Result<Finding, Memory>
        ensures { IfOk result (λ finding. finding_model finding ≡ breach_model (model_of self.now) (method_model method.now) breach) }
    {
        let place = breach.place;
        match breach.reason {
            Reason::NotOwned(v) => texts::not_owned(alloc, place, name_of(method, v)),
            Reason::NotSent { endpoint, message } => {
                let message = self.name_along(method, endpoint, message);
                texts::not_sent_here(alloc, place, message)
            }
            Reason::WrongFor {
                variable,
                endpoint,
                message,
            } => {
                let message = self.name_along(method, endpoint, message);
                texts::in_a_wrong_state_for(alloc, place, name_of(method, variable), message)
            }
            Reason::WrongForCall(v) => {
                texts::in_a_wrong_state_for_the_call(alloc, place, name_of(method, v))
            }
            Reason::NotCovered { endpoint, message } => {
                let message = self.name_along(method, endpoint, message);
                texts::not_covered(alloc, place, name_of(method, endpoint), message)
            }
            Reason::NothingToReceive => texts::nothing_to_receive(alloc, place),
            Reason::Overwritten(v) => texts::overwritten(alloc, place, name_of(method, v)),
            Reason::StillOwned(v) => texts::still_owned(alloc, place, name_of(method, v)),
            Reason::NotBack(v) => texts::not_back_in_its_state(alloc, place, name_of(method, v)),
            Reason::Lent(v) => texts::is_lent(alloc, place, name_of(method, v)),
            Reason::Twice(v) => texts::given_twice(alloc, place, name_of(method, v)),
            Reason::WrongForResult(v) => {
                texts::in_a_wrong_state_for_the_result(alloc, place, name_of(method, v))
            }
            Reason::NoResult => texts::no_result(alloc, place),
            Reason::WrongForField(v) => {
                texts::in_a_wrong_state_for_the_field(alloc, place, name_of(method, v))
            }
        }
    }

    /// Returns the name of a message of the contract of an endpoint.
    fn name_along<'a>(&'a self, method: &Method, endpoint: VarId, message: MessageId) -> &'a [u8]
        ensures { result.now ≡ table.name_along (model_of self.now) (method_model method.now) endpoint message }
    {
        self.message_name(type_of(method, endpoint), message)
    }
}
