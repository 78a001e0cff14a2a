//! Endpoints of a method, by the contracts of its program.

ghost use Rattle.std.specs.Prelude.{◌≡◌, ℕ, option_map};
ghost use Rattle.contracts.specs.Leaving.{end_on};
ghost use Rattle.program.specs.Programs.{ProgramModel};
ghost use Rattle.rules.specs.Endpoints as table;
ghost use Rattle.rules.specs.Mentions as mentioned;
ghost use Rattle.traces.specs.Lines as told;
ghost use Rattle.traces.specs.Steps.{program_of, method_of};

use crate::teller::Teller;
use program::{Awaited, HeapType, MessageId, Side, StateId, VarId};
use rules::Leaf;

impl Teller<'_> {
    /// Returns the name of a variable; empty if there is no such variable.
    pub(crate) fn name_of(&self, variable: VarId) -> &[u8]
        ensures { result.now ≡ mentioned.name_of (method_of self.now) variable.0 }
    {
        match self.method.variables.get(variable.0) {
            Some(variable) => &variable.name,
            None => &[],
        }
    }

    /// Returns the type of a variable, if there is such a variable.
    fn type_of(&self, variable: VarId) -> Option<HeapType>
        ensures { result ≡ table.type_of (method_of self.now) variable.0 }
    {
        match self.method.variables.get(variable.0) {
            Some(variable) => Some(variable.ty),
            None => None,
        }
    }

    /// Returns the name of a message of the contract of an endpoint.
    pub(crate) fn message_name(&self, endpoint: VarId, message: MessageId) -> &[u8]
        ensures { result.now ≡ table.message_name (program_of self.now)
            (table.type_of (method_of self.now) endpoint.0) message.0 }
    {
        let Some(HeapType::Endpoint { contract, .. }) = self.type_of(endpoint) else {
            return &[];
        };
        match self.program.sounds().get(contract.0 as usize) {
            Some(sound) => sound.message_name(message),
            None => &[],
        }
    }

    /// Returns how a state of the contract of an endpoint is printed.
    pub(crate) fn state_name(&self, endpoint: VarId, state: u32) -> &[u8]
        ensures { result.now ≡ told.state_name (program_of self.now)
            (table.type_of (method_of self.now) endpoint.0) state }
    {
        let Some(HeapType::Endpoint { contract, .. }) = self.type_of(endpoint) else {
            return &[];
        };
        let Some(contract) = self.program.contracts().get(contract.0 as usize) else {
            return &[];
        };
        explanations::state_name(contract, state)
    }

    /// Returns what an endpoint has once what is awaited there has arrived, from what it had before.
    pub(crate) fn awaited_leaf(&self, endpoint: VarId, awaited: Awaited, before: Leaf) -> Leaf
        ensures { result ≡ told.awaited_leaf (program_of self.now)
            (method_of self.now) endpoint.0 awaited before }
    {
        let Awaited::Message(message) = awaited else {
            return Leaf::CutOff;
        };
        let Leaf::State(state) = before else {
            return Leaf::Nothing;
        };
        match self.next_state(endpoint, state, message) {
            Some(next) => Leaf::State(next.0),
            None => Leaf::Nothing,
        }
    }

    /// Returns the state of an endpoint after it receives a message in a state, if it may receive it there.
    fn next_state(&self, endpoint: VarId, state: u32, message: MessageId) -> Option<StateId>
        ensures { option_map (λ q. q.0) result
            ≡ end_on (table.edges_in (program_of self.now)
            (table.type_of (method_of self.now) endpoint.0) state) message.0 }
    {
        self.program
            .state_after_send(across(self.type_of(endpoint)), state, message)
    }
}

/// Returns the type of the other end of an endpoint, which sends what this one receives.
fn across(ty: Option<HeapType>) -> Option<HeapType>
    ensures { (p : ProgramModel) (state : ℕ) → table.edges_out p result state ≡ table.edges_in p ty state }
{
    match ty? {
        HeapType::Endpoint {
            contract,
            side: Side::Imp,
            state,
        } => Some(HeapType::Endpoint {
            contract,
            side: Side::Exp,
            state,
        }),
        HeapType::Endpoint {
            contract,
            side: Side::Exp,
            state,
        } => Some(HeapType::Endpoint {
            contract,
            side: Side::Imp,
            state,
        }),
        HeapType::Struct(_) | HeapType::Array(_) => None,
    }
}
