//! What the rule table looks up in a program.

ghost use Rattle.std.specs.Prelude.{◌≡◌, ◌<◌, All, IfSome, MatchOption, option_map};
ghost use Rattle.contracts.specs.Leaving.{end_on};
ghost use Rattle.contracts.specs.Sounds.{sound_parts};
ghost use Rattle.program.specs.Methods.{method_model};
ghost use Rattle.program.specs.WellFormed.{field_types};
ghost use Rattle.program.specs.declared.limits.TheConstants.{MOST_STATES};
ghost use Rattle.rules.specs.Endpoints as table;
ghost use Rattle.rules.specs.Endpoints.{declared_leaf};
ghost use Rattle.rules.specs.Ends.{IsEndOf, IsNoEnd};
ghost use Rattle.rows.specs.Leaves.{IsNumbered};

use crate::lowered::Program;
use contracts::Sound;
use program::{ContractId, Edge, HeapType, MessageId, Method, MethodId, Side, StateId, VarId};
use rows::Leaf;

/// Returns what a variable of this type has when it is given.
pub(crate) fn declared_leaf(ty: HeapType) -> Leaf
    ensures { result ≡ declared_leaf ty }
{
    match ty {
        HeapType::Struct(_) | HeapType::Array(_) => Leaf::Block,
        HeapType::Endpoint { state, .. } => Leaf::State(state.0),
    }
}

/// Returns whether this is an endpoint that is neither cut off nor in the state that its type declares.
pub(crate) fn is_wrong(ty: HeapType, leaf: Leaf) -> bool
    ensures { result ≡ table.is_wrong ty leaf }
{
    match (ty, leaf) {
        (HeapType::Endpoint { state, .. }, Leaf::State(number)) => number != state.0,
        _ => false,
    }
}

/// Returns the type of a variable of a method, if there is such a variable.
pub(crate) fn type_of(method: &Method, variable: VarId) -> Option<HeapType>
    ensures { result ≡ table.type_of (method_model method.now) variable.0 }
{
    match method.variables.get(variable.0) {
        Some(variable) => Some(variable.ty),
        None => None,
    }
}

impl Program {
    ghost use Rattle.rules.specs.Programs.{model_of};

    /// Returns the types of a message's parameters of the exchange heap.
    pub(crate) fn payload_types(&self, message: MessageId) -> &[HeapType]
        ensures types { result.now ≡ table.payload_types (model_of self.now) message.0 }
        ensures numbered { All (λ ty. IsNumbered (declared_leaf ty)) result.now }
    {
        match self.methods.messages().get(message.0 as usize) {
            Some(types) => types.as_slice(),
            None => &[],
        }
    }

    /// Returns the types of the owning fields of a block of this type.
    fn field_types(&self, ty: HeapType) -> &[HeapType]
        ensures types { result.now ≡ field_types (model_of self.now).structs ty }
        ensures numbered { All (λ ty. IsNumbered (declared_leaf ty)) result.now }
    {
        match ty {
            HeapType::Struct(number) => match self.methods.structs().get(number.0 as usize) {
                Some(types) => types.as_slice(),
                None => &[],
            },
            HeapType::Array(_) | HeapType::Endpoint { .. } => &[],
        }
    }

    /// Returns the types of the owning fields of the block of a variable.
    pub(crate) fn fields_of(&self, method: &Method, variable: VarId) -> &[HeapType]
        ensures types { result.now ≡ table.fields_of (model_of self.now) (method_model method.now) variable.0 }
        ensures numbered { All (λ ty. IsNumbered (declared_leaf ty)) result.now }
    {
        match type_of(method, variable) {
            Some(ty) => self.field_types(ty),
            None => &[],
        }
    }

    /// Returns the type of one of these fields, if there is such a field.
    pub(crate) fn field_of(
        &self,
        method: &Method,
        variable: VarId,
        field: usize,
    ) -> Option<HeapType>
        ensures ty { result ≡ table.field_of (model_of self.now) (method_model method.now) variable.0 field }
        ensures numbered { IfSome result (λ ty. IsNumbered (declared_leaf ty)) }
    {
        self.fields_of(method, variable).get(field).copied()
    }

    /// Returns the types of a method's parameters of the exchange heap.
    pub(crate) fn parameter_types(&self, method: MethodId) -> &[HeapType]
        ensures { result.now ≡ table.parameter_types (model_of self.now) method.0 }
    {
        match self.parameters.get(method.0 as usize) {
            Some(types) => types.as_slice(),
            None => &[],
        }
    }

    /// Returns the type of a method's result, if it is of the exchange heap.
    pub(crate) fn result_of(&self, method: MethodId) -> Option<HeapType>
        ensures ty { result ≡ table.result_of (model_of self.now) method.0 }
        ensures numbered { IfSome result (λ ty. IsNumbered (declared_leaf ty)) }
    {
        self.methods.list().get(method.0 as usize)?.result
    }

    /// Returns the state in which a channel of the contract begins.
    pub fn first_state(&self, contract: ContractId) -> StateId
        ensures state { result.0 ≡ table.first_state (model_of self.now) contract.0 }
        ensures numbered { result.0 < MOST_STATES }
    {
        match self.sounds.get(contract.0 as usize) {
            Some(sound) => sound.first(),
            None => StateId(0),
        }
    }

    /// Returns whether an endpoint of this type sends in a state.
    pub(crate) fn sends(&self, ty: Option<HeapType>, state: u32) -> bool
        ensures { result ≡ table.sends (model_of self.now) ty state }
    {
        match self.end_of(ty) {
            Some(end) => !end.sound.edges_out(end.side, StateId(state)).is_empty(),
            None => false,
        }
    }

    /// Returns the state of an endpoint of this type after it sends the message, if it sends it in the given state.
    pub fn state_after_send(
        &self,
        ty: Option<HeapType>,
        state: u32,
        message: MessageId,
    ) -> Option<StateId>
        ensures end { option_map (λ q. q.0) result ≡ end_on (table.edges_out (model_of self.now) ty state) message.0 }
        ensures numbered { IfSome result (λ q. q.0 < MOST_STATES) }
    {
        match self.end_of(ty) {
            Some(end) => end
                .sound
                .state_after_send(end.side, StateId(state), message),
            None => None,
        }
    }

    /// Returns the edges along which an endpoint of this type receives in a state, in order of the contract.
    pub(crate) fn edges_in(&self, ty: Option<HeapType>, state: u32) -> &[Edge]
        ensures edges { result.now ≡ table.edges_in (model_of self.now) ty state }
        ensures numbered { All (λ e. e.to.0 < MOST_STATES) result.now }
    {
        match self.end_of(ty) {
            Some(end) => end.sound.edges_in(end.side, StateId(state)),
            None => &[],
        }
    }

    /// Returns the name of a message of the contract of an endpoint of this type.
    pub(crate) fn message_name(&self, ty: Option<HeapType>, message: MessageId) -> &[u8]
        ensures { result.now ≡ table.message_name (model_of self.now) ty message.0 }
    {
        match self.end_of(ty) {
            Some(end) => end.sound.message_name(message),
            None => &[],
        }
    }

    /// Returns the contract and the side of an endpoint of this type.
    fn end_of(&self, ty: Option<HeapType>) -> Option<End<'_>>
        ensures { MatchOption result (IsNoEnd (model_of self.now) ty)
            (λ end. IsEndOf (model_of self.now) ty (sound_parts end.sound.now) end.side) }
    {
        match ty? {
            HeapType::Endpoint { contract, side, .. } => {
                let sound = self.sounds.get(contract.0 as usize)?;
                Some(End { sound, side })
            }
            HeapType::Struct(_) | HeapType::Array(_) => None,
        }
    }
}

/// A sound contract and one of its sides.
#[derive(Clone, Copy)]
struct End<'a> {
    sound: &'a Sound,
    side: Side,
}
