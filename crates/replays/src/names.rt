//! Names of what a world has.

ghost use Rattle.std.specs.Prelude.{◌≡◌, ◌++◌, IfOk, OnOk, map, option_map, string_bytes};
ghost use Rattle.rules.specs.Programs.{model_of};
ghost use Rattle.replays.specs.Naming.{words_of};
ghost use Rattle.replays.specs.Names as told;
ghost use Rattle.replays.specs.Names.{Words, type_name, scalar_name, side_name, state_of};
ghost use Rattle.replays.specs.Placed.{index_in};

use crate::naming::{Naming, indices_in};
use crate::texts::add;
use program::{ContractId, HeapType, MessageId, Scalar, Side, StateId, StructId};
use rules::Program;
use source::Memory;
use std::alloc::{AllocError, Global};

impl<'a> Naming<'a> {
    /// Takes the names from a program and, for its structs, from a list in order of the text.
    pub(crate) fn new(
        alloc: Global,
        program: &'a Program,
        structs: &'a [String],
    ) -> Result<Naming<'a>, AllocError>
        ensures { IfOk result (λ naming. words_of naming
            ≡ record { program = model_of program.now; structs = map string_bytes structs.now }) }
    {
        let states = indices_in(alloc, program.contracts())?;
        Ok(Naming {
            program,
            structs,
            states,
        })
    }

    /// Returns the program.
    pub(crate) fn program(&self) -> &'a Program
        ensures { model_of result.now ≡ (words_of self.now).program }
    {
        self.program
    }

    /// Returns the name of a struct, empty if there is none.
    fn struct_name(&self, id: StructId) -> &[u8]
        ensures { result.now ≡ told.struct_name (words_of self.now) id.0 }
    {
        match self.structs.get(id.0) {
            Some(name) => name.as_bytes(),
            None => &[],
        }
    }

    /// Returns the name of a contract, empty if there is none.
    fn contract_name(&self, id: ContractId) -> &[u8]
        ensures { result.now ≡ told.contract_name (words_of self.now) id.0 }
    {
        match self.program.contracts().get(id.0 as usize) {
            Some(contract) => contract.name.as_bytes(),
            None => &[],
        }
    }

    /// Returns the index of a state of this number among the states of its contract.
    fn index_of(&self, contract: ContractId, state: StateId) -> Option<usize>
        ensures { result ≡ index_in self.now.states.items contract.0 state.0 }
    {
        self.states.get(contract.0 as usize)?.get(&state.0).copied()
    }

    /// Returns the printed name of the state of this number in a contract. `None` if there is none.
    fn find_state_name(&self, contract: ContractId, state: StateId) -> Option<&[u8]>
        ensures { option_map (λ bytes. bytes.now) result
            ≡ option_map (λ s. s.name) (state_of (words_of self.now).program.contracts contract.0 state.0) }
    {
        let index = self.index_of(contract, state)?;
        let within = self.program.contracts().get(contract.0 as usize)?;
        let there = *within.states.get(index)?;
        Some(within.state_name(there))
    }

    /// Returns the printed name of a state of a contract, empty if there is none.
    pub(crate) fn state_name(&self, contract: ContractId, state: StateId) -> &[u8]
        ensures { result.now ≡ told.state_name (words_of self.now) contract.0 state.0 }
    {
        self.find_state_name(contract, state).unwrap_or(&[])
    }

    /// Returns the name of a message of a contract, empty if there is no such contract.
    pub(crate) fn message_name(&self, contract: ContractId, message: MessageId) -> &[u8]
        ensures { result.now ≡ told.message_name (words_of self.now) contract.0 message.0 }
    {
        match self.program.sounds().get(contract.0 as usize) {
            Some(sound) => sound.message_name(message),
            None => &[],
        }
    }

    /// Adds a type: the name of a struct, `byte[]`, `C.Imp`.
    pub(crate) fn add_type(&self, answer: &mut Vec<u8>, ty: HeapType) -> Result<(), Memory>
        ensures { OnOk result (answer.new.items ≡ answer.old.items ++ type_name (words_of self.now) ty) }
    {
        match ty {
            HeapType::Struct(id) => add(answer, self.struct_name(id)),
            HeapType::Array(element) => {
                add(answer, scalar_name(element))?;
                add(answer, b"[]")
            }
            HeapType::Endpoint { contract, side, .. } => {
                add(answer, self.contract_name(contract))?;
                add(answer, b".")?;
                add(answer, side_name(side))
            }
        }
    }
}

fn scalar_name(scalar: Scalar) -> &'static [u8]
    ensures { result.now ≡ scalar_name scalar }
{
    match scalar {
        Scalar::Int => b"int",
        Scalar::Bool => b"bool",
        Scalar::Byte => b"byte",
    }
}

fn side_name(side: Side) -> &'static [u8]
    ensures { result.now ≡ side_name side }
{
    match side {
        Side::Imp => b"Imp",
        Side::Exp => b"Exp",
    }
}
