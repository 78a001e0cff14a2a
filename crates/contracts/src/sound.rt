//! Contracts that meet the four conditions.

ghost use Rattle.std.specs.Prelude.{◌≡◌, ◌<◌, All, IfOk, IfSome, OnOk, map, option_map};
ghost use Rattle.std.proofs.Props.{props};
ghost use Rattle.program.specs.declared.contract.Sign.TheVariants.{Send, Receive};
ghost use Rattle.program.specs.declared.limits.TheConstants.{MOST_STATES};
ghost use Rattle.contracts.specs.Bounds.{IsBound, sign_to};
ghost use Rattle.contracts.specs.Conditions.{FindingModel, IsFlaw, IsSound};
ghost use Rattle.contracts.specs.Graphs.{groups};
ghost use Rattle.contracts.specs.Leaving.{AreLeaving, all_from, edges_from, end_on, name_among, sign_from};
ghost use Rattle.contracts.specs.Drawings.{IsDrawing};
ghost use Rattle.contracts.specs.Parts.{IsWhole, contract_parts, message_model};
ghost use Rattle.contracts.specs.Orders.{IsOrder};
ghost use Rattle.contracts.specs.Positions.{numbers_of};
ghost use Rattle.contracts.specs.Walks.{IsNext};

use crate::bounds::Bounds;
use crate::conditions::findings_in;
use crate::drawing::{Drawing, drawing_of};
use crate::groups::Groups;
use crate::keys::{messages_of, states_of};
use crate::leaving::{edges_by_state, sign_from, sign_to};
use crate::order::{first_on, order_of};
use crate::positions::Listing;
use program::{Contract, Edge, Message, MessageId, Side, Sign, StateId};
use source::{Finding, Memory};
use std::alloc::{AllocError, AllocFailed, Global};
use std::snapshot::Snapshot;
use thiserror::Error;

/// Why `Sound::new` returned no sound contract.
#[derive(Clone, Copy, Debug, PartialEq, Eq, Error)]
pub enum SoundFault {
    /// A condition is not met.
    #[error("the contract is not sound")]
    Found,
    /// An allocation was refused.
    #[error("out of memory")]
    Memory,
}

impl From<AllocError> for SoundFault {
    ghost use Rattle.std.specs.Prelude.{◌≡◌};
    ghost use Rattle.contracts.specs.declared.sound.SoundFault.TheVariants.{Memory};

    ghost from_gives = { λ _ e. e ≡ Memory };

    fn from(_e: AllocError) -> SoundFault {
        SoundFault::Memory
    }
}

impl<T: Drop> From<AllocFailed<T>> for SoundFault {
    ghost use Rattle.std.specs.Prelude.{◌≡◌};
    ghost use Rattle.contracts.specs.declared.sound.SoundFault.TheVariants.{Memory};

    ghost from_gives = { λ _ e. e ≡ Memory };

    fn from(_e: AllocFailed<T>) -> SoundFault {
        SoundFault::Memory
    }
}

impl From<Memory> for SoundFault {
    ghost use Rattle.std.specs.Prelude.{◌≡◌};
    ghost use Rattle.contracts.specs.declared.sound.SoundFault.TheVariants.{Memory};

    ghost from_gives = { λ _ e. e ≡ Memory };

    fn from(_e: Memory) -> SoundFault {
        SoundFault::Memory
    }
}

/// A contract that meets the four conditions, with the bounds of its queues. It looks up an edge, the edges from a state and a
/// message by their numbers. The names of its states stay with the contract from which it was made.
#[derive(Drop)]
pub struct Sound {
    contract: Snapshot<Contract>,
    first: StateId,
    edges: Vec<Edge>,
    messages: Vec<Message>,
    bounds: Bounds,
    states: Listing,
    numbers: Listing,
    order: Vec<usize>,
    leaving: Groups<Edge>,
    pub ghost whole: { ∥ IsWhole (contract_parts contract.value) ∥₁ },
    pub ghost sound: { IsSound (contract_parts contract.value) },
    ghost first_is: { first ≡ contract.value.first } by { Prim.hlevel props },
    ghost edges_are: { edges.items ≡ contract.value.edges.items } by { Prim.hlevel props },
    ghost messages_are: { map message_model messages.items ≡ map message_model contract.value.messages.items } by { Prim.hlevel props },
    ghost to_imp: { ∥ IsBound contract.value.edges.items contract.value.first Send bounds.to_imp ∥₁ },
    ghost to_exp: { ∥ IsBound contract.value.edges.items contract.value.first Receive bounds.to_exp ∥₁ },
    ghost ordered: { ∥ IsOrder edges.items order.items ∥₁ },
    ghost named: { numbers_of numbers ≡ map (λ m. m.id.0) messages.items } by { Prim.hlevel props },
    ghost leave: { AreLeaving (numbers_of states) contract.value.edges.items (groups leaving) } by { Prim.hlevel props },
}

/// The result of judging a contract.
#[derive(Drop)]
pub enum Judged {
    /// It meets the four conditions.
    Sound(Sound),
    /// All its findings, at least one.
    Broken(Vec<Finding>),
}

impl Sound {
    ghost use Rattle.contracts.specs.Sounds.{IsJudged, sound_parts};

    /// Returns a sound contract of these parts, or all their findings. Copies what it needs, without the names of states.
    ///
    /// # Errors
    /// `Memory` if an allocation was refused.
    pub fn judge(alloc: Global, contract: &Contract) -> Result<Judged, Memory>
        requires whole { IsWhole (contract_parts contract.now) }
        ensures { IfOk result (IsJudged (contract_parts contract.now)) }
    {
        let drawing = drawing_of(alloc, contract)?;
        let order = order_of(alloc, &contract.edges)?;
        let found = findings_in(alloc, contract, &order, &drawing)?;
        if !found.is_empty() {
            return Ok(Judged::Broken(found));
        }
        let sound = sound_of(alloc, contract, order, &drawing)?;
        Ok(Judged::Sound(sound))
    }

    /// Returns a sound contract of these parts.
    ///
    /// # Errors
    /// `Found` if a condition is not met, `Memory` if an allocation was refused.
    pub fn new(alloc: Global, contract: &Contract) -> Result<Sound, SoundFault>
        requires whole { IsWhole (contract_parts contract.now) }
        ensures parts { IfOk result (λ sound. sound_parts sound ≡ contract_parts contract.now) }
        ensures sound { OnOk result (IsSound (contract_parts contract.now)) }
        ensures found { result ≡ Err SoundFault.Found → (f : FindingModel) × IsFlaw
            (contract_parts contract.now) f }
    {
        match Sound::judge(alloc, contract)? {
            Judged::Sound(sound) => Ok(sound),
            Judged::Broken(_) => Err(SoundFault::Found),
        }
    }

    /// Returns how many messages the queue to an end can hold: the greatest number of edges in a walk of `!` edges, for the
    /// importer, or of `?` edges, for the exporter, that begins at a state which can be reached from the first one.
    pub fn bound(&self, side: Side) -> u32
        ensures { ∥ IsBound (sound_parts self.now).edges (sound_parts self.now).first
            (sign_to side) result ∥₁ }
    {
        match side {
            Side::Imp => self.bounds.to_imp,
            Side::Exp => self.bounds.to_exp,
        }
    }

    /// Returns the state in which the edge of a state on a message ends, if there is one.
    pub fn next(&self, state: StateId, message: MessageId) -> Option<StateId>
        ensures { IsNext (sound_parts self.now).edges state message result }
    {
        let position = first_on(&self.edges, &self.order, state, message)?;
        Some(self.edges[position].to)
    }

    /// Returns its edges, in order of the text. They meet the four conditions.
    pub fn edges(&self) -> &[Edge]
        ensures edges { result.now ≡ (sound_parts self.now).edges }
        ensures whole { ∥ IsWhole (sound_parts self.now) ∥₁ }
        ensures sound { IsSound (sound_parts self.now) }
    {
        &self.edges
    }

    /// Returns the state in which its channels begin.
    pub fn first(&self) -> StateId
        ensures first { result ≡ (sound_parts self.now).first }
        ensures numbered { result.0 < MOST_STATES }
    {
        self.first
    }

    /// Returns the edges along which the end of this side sends in a state, in order of the text.
    pub fn edges_out(&self, side: Side, state: StateId) -> &[Edge]
        ensures { result.now ≡ edges_from (sound_parts self.now).edges (sign_from side) state.0 }
    {
        self.edges_of(sign_from(side), state)
    }

    /// Returns the edges along which the end of this side receives in a state, in order of the text.
    pub fn edges_in(&self, side: Side, state: StateId) -> &[Edge]
        ensures edges { result.now ≡ edges_from (sound_parts self.now).edges (sign_to side) state.0 }
        ensures numbered { All (λ e. e.to.0 < MOST_STATES) result.now }
    {
        self.edges_of(sign_to(side), state)
    }

    /// Returns the edges of this sign from a state, in order of the text. All edges from a state have the same sign.
    fn edges_of(&self, sign: Sign, state: StateId) -> &[Edge]
        ensures { result.now ≡ edges_from (sound_parts self.now).edges sign state.0 }
    {
        let group = self.edges_at(state);
        match group.first() {
            Some(edge) if edge.sign == sign => group,
            _ => &[],
        }
    }

    /// Returns the edges of either sign from a state, in order of the text.
    fn edges_at(&self, state: StateId) -> &[Edge]
        ensures { result.now ≡ all_from (sound_parts self.now).edges state.0 }
    {
        if self.states.has(state.0) {
            self.leaving.group(self.states.position(state.0))
        } else {
            &[]
        }
    }

    /// Returns the state in which the end of this side is after it sent the message in a state, if an edge allows that.
    pub fn state_after_send(
        &self,
        side: Side,
        state: StateId,
        message: MessageId,
    ) -> Option<StateId>
        ensures end { option_map (λ q. q.0) result
            ≡ end_on (edges_from (sound_parts self.now).edges (sign_from side) state.0) message.0 }
        ensures numbered { IfSome result (λ q. q.0 < MOST_STATES) }
    {
        let position = first_on(&self.edges, &self.order, state, message)?;
        let edge = self.edges[position];
        if edge.sign == sign_from(side) {
            Some(edge.to)
        } else {
            None
        }
    }

    /// Returns the name of a message; empty if the contract has no such message.
    pub fn message_name(&self, message: MessageId) -> &[u8]
        ensures { result.now ≡ name_among (sound_parts self.now).messages message.0 }
    {
        if self.numbers.has(message.0) {
            let position = self.numbers.position(message.0);
            self.messages[position].name.as_bytes()
        } else {
            &[]
        }
    }
}

/// Makes the sound contract of one without findings, from its drawing and the order of its edges.
fn sound_of(
    alloc: Global,
    contract: &Contract,
    order: Vec<usize>,
    drawing: &Drawing,
) -> Result<Sound, AllocError>
    requires whole { IsWhole (contract_parts contract.now) }
    requires sound { IsSound (contract_parts contract.now) }
    requires ordered { IsOrder contract.now.edges.items order.items }
    requires drawing { IsDrawing contract.now drawing.now }
    ensures { IfOk result (λ sound. contract_parts sound.contract.value ≡ contract_parts contract.now) }
{
    let states = states_of(contract);
    let edges = contract.edges.to_vec(alloc)?;
    let messages = copy_messages(alloc, &contract.messages)?;
    let leaving = edges_by_state(alloc, &edges, states)?;
    Ok(Sound {
        contract: Snapshot::of(contract),
        first: contract.first,
        edges,
        messages,
        bounds: drawing.bounds,
        states,
        numbers: messages_of(contract),
        order,
        leaving,
    })
}

/// Copies the messages.
fn copy_messages(alloc: Global, messages: &[Message]) -> Result<Vec<Message>, AllocError>
    ensures parts { IfOk result (λ copies. map message_model copies.items ≡ map message_model messages.now) }
{
    let mut copies = Vec::with_capacity(alloc, messages.len())?;
    for message in messages {
        copies.push(Message {
            id: message.id,
            name: String::from_str(alloc, message.name.as_str())?,
            direction: message.direction,
        })?;
    }
    Ok(copies)
}
