//! The methods of a program, and that they are well formed.

ghost use Rattle.std.specs.Prelude.{◌≡◌, ◌≤◌, ◌<◌, ◌^◌, [], IfOk, length, map};
ghost use Rattle.program.specs.Parts.{contract_model};
ghost use Rattle.program.specs.Programs.{contracts_model, messages_model, methods_model, structs_model};
ghost use Rattle.tree.specs.Trees.{contracts_of, program_tree};
ghost use Rattle.names.specs.Findings.{program_mistakes};
ghost use Rattle.declarations.specs.Program.{program_of};
ghost use Rattle.declarations.specs.Resolution.{resolved_contracts};
ghost use Rattle.program.specs.declared.limits.TheConstants.{MOST_METHODS};
ghost use Rattle.resolving.specs.Brought.{messages_told};
ghost use Rattle.resolving.specs.Fields.{structs_told};
ghost use Rattle.resolving.specs.Methods.{methods_told};
ghost use Rattle.program.specs.Lists.{Each};
ghost use Rattle.wellformed.specs.Bare.{IsBare};

use program::{Methods, Resolved};
use resolving::{ResolvedProgram, resolve_methods};
use source::Memory;
use std::alloc::Global;
use tree::Tree;

/// Returns the methods of a program without mistakes in its names and types. `contracts` are its resolved contracts.
///
/// A method that takes nothing has no parameter of the exchange heap either.
///
/// # Errors
/// `Memory` if an allocation fails; the contracts are dropped.
pub fn well_formed_methods(
    alloc: Global,
    tree: &Tree,
    text: &[u8],
    contracts: Resolved,
) -> Result<Methods, Memory>
    requires contracts { map contract_model contracts.contracts.items
        ≡ resolved_contracts text.now (contracts_of (program_tree tree.now)) }
    requires room { length contracts.contracts.items < 2 ^ 32 }
    requires clean { program_mistakes (program_of text.now tree.now) ≡ [] }
    ensures contracts { IfOk result (λ m. contracts_model m ≡ map contract_model contracts.contracts.items) }
    ensures messages { IfOk result (λ m. messages_model m ≡ messages_told (program_of text.now tree.now)) }
    ensures structs { IfOk result (λ m. structs_model m ≡ structs_told (program_of text.now tree.now)) }
    ensures methods { IfOk result (λ m. methods_model m ≡ methods_told (program_of text.now tree.now)) }
    ensures bare { IfOk result (λ m. Each IsBare (methods_model m)) }
    ensures few { IfOk result (λ m. length (methods_model m) ≤ MOST_METHODS) }
{
    let ResolvedProgram {
        messages,
        structs,
        methods,
    } = resolve_methods(alloc, tree, text, &contracts)?;
    Ok(Methods::new(contracts, messages, structs, methods))
}
