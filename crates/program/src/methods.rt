//! The methods of a program, with its contracts and types.

ghost use Rattle.std.specs.Prelude.{◌≡◌, ◌≤◌, ◌<◌, Some, length, map, slice_get};
ghost use Rattle.program.specs.Parts.{contract_model};
ghost use Rattle.program.specs.Methods.{method_model};
ghost use Rattle.program.specs.Programs.{contracts_model, messages_model, methods_model, program_model, structs_model, type_lists};
ghost use Rattle.program.specs.Lists.{Each};
ghost use Rattle.program.specs.WellFormed.{AreFields, AreWellFormed, IsType, IsWellFormed};
ghost use Rattle.program.specs.declared.limits.TheConstants.{MOST_METHODS};

use crate::contract::Resolved;
use crate::method::Method;
use crate::number::MethodId;
use crate::types::HeapType;
use std::marker::Model;

/// The methods of a program in order of the text, with its contracts, the types that its messages bring and the
/// types of the owning fields of its structs.
///
/// There are at most `MOST_METHODS`. All names are resolved, and the program is well formed: each number refers to
/// something; a method has at most `MOST_VARIABLES` variables, and a struct at most `MOST_FIELDS` owning fields; a call
/// and a send give a variable of the right type for each parameter of the exchange heap, and a call has a target
/// exactly if the callee gives a block; what is assigned is in scope; a started method gives nothing and claims its
/// parameters; a switch has a case for the close of each of its endpoints; what a case binds takes what its message
/// brings, and comes into scope there. Exactly what came into scope goes out of it.
#[derive(Drop)]
pub struct Methods {
    contracts: Resolved,
    messages: Vec<Vec<HeapType>>,
    structs: Vec<Vec<HeapType>>,
    list: Vec<Method>,
}

impl Model for Methods {
    ghost use Rattle.std.specs.Coded.{codes};
    ghost use Rattle.std.specs.Prelude.{List, ◌≤◌, length};
    ghost use Rattle.program.specs.Programs.{program_model, type_lists};
    ghost use Rattle.program.specs.WellFormed.{AreWellFormed};
    ghost use Rattle.program.specs.declared.limits.TheConstants.{MOST_METHODS};
    ghost use Rattle.program.specs.contracts.statement.Statement as statement;
    ghost use Rattle.program.specs.declared.contract.Contract.{Contract};
    ghost use Rattle.program.specs.declared.types.HeapType.{HeapType};
    ghost use Rattle.program.specs.declared.method.Method.{Method};

    ghost Value = { List Contract × List (List HeapType) × List (List HeapType) × List Method };

    ghost coded = { Prim.hlevel (codes, statement.the_row.coded) };

    ghost view = { λ m. (m.contracts.contracts.items, type_lists m.messages.items, type_lists m.structs.items, m.list.items) };

    ghost invariant = { λ m. AreWellFormed (program_model (
      m.contracts.contracts.items,
      type_lists m.messages.items,
      type_lists m.structs.items,
      m.list.items,
    )) × (length m.list.items ≤ MOST_METHODS) };
}

impl Methods {
    /// Returns the methods of a program with these contracts, types that messages bring and types of owning fields.
    pub fn new(
        contracts: Resolved,
        messages: Vec<Vec<HeapType>>,
        structs: Vec<Vec<HeapType>>,
        list: Vec<Method>,
    ) -> Methods
        requires well_formed { AreWellFormed (program_model (
          contracts.contracts.items,
          type_lists messages.items,
          type_lists structs.items,
          list.items,
        )) }
        requires few { length list.items ≤ MOST_METHODS }
        ensures contracts { contracts_model result ≡ map contract_model contracts.contracts.items }
        ensures messages { messages_model result ≡ type_lists messages.items }
        ensures structs { structs_model result ≡ type_lists structs.items }
        ensures methods { methods_model result ≡ map method_model list.items }
    {
        Methods {
            contracts,
            messages,
            structs,
            list,
        }
    }

    /// Returns the contracts, in order of the text.
    pub fn contracts(&self) -> &Resolved
        ensures { map contract_model result.now.contracts.items ≡ contracts_model self.now }
    {
        &self.contracts
    }

    /// Returns the types that each message brings for its parameters of the exchange heap, in order. The index is
    /// the number of the message.
    pub fn messages(&self) -> &[Vec<HeapType>]
        ensures messages { type_lists result.now ≡ messages_model self.now }
        ensures types { Each (Each (IsType (contracts_model self.now))) (messages_model self.now) }
    {
        &self.messages
    }

    /// Returns the types of the owning fields of each struct, in order. The index is the number of the struct.
    pub fn structs(&self) -> &[Vec<HeapType>]
        ensures structs { type_lists result.now ≡ structs_model self.now }
        ensures types { Each (AreFields (contracts_model self.now)) (structs_model self.now) }
    {
        &self.structs
    }

    /// Returns the methods, in order of the text.
    pub fn list(&self) -> &[Method]
        ensures list { map method_model result.now ≡ methods_model self.now }
        ensures well_formed { AreWellFormed (program_model self.now) }
        ensures few { length (methods_model self.now) ≤ MOST_METHODS }
    {
        self.list.as_slice()
    }

    /// Returns the method with this number.
    pub fn method(&self, id: MethodId) -> &Method
        requires there { id.0 < length (methods_model self.now) }
        ensures method { slice_get (methods_model self.now) id.0 ≡ Some (method_model result.now) }
        ensures well_formed { IsWellFormed (program_model self.now) (method_model result.now) }
    {
        &self.list[id.0 as usize]
    }
}
