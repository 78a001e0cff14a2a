//! Entries: the method with which a run of a text begins.

ghost use Rattle.std.specs.Prelude.{◌≡◌, ◌<◌, ◌≤◌, ◌^◌, ℕ, All, IfErr, IfNone, IfOk, IfSome, Some, length};
ghost use Rattle.tree.specs.Trees.{program_tree};
ghost use Rattle.contracts.specs.Conditions.{IsSound};
ghost use Rattle.program.specs.declared.limits.TheConstants.{MOST_METHODS};
ghost use Rattle.rules.specs.Programs.{model_of};
ghost use Rattle.singcheck.specs.Entered.{MayBegin, ComesIn};
ghost use Rattle.singcheck.specs.Fronts.{HasCleanNames, IsRefused};

use crate::entries::{entry_index, method_names, struct_names};
use crate::front::{Refused, judged_program, methods_of};
use program::MethodId;
use rules::Program;
use source::Memory;
use std::alloc::Global;
use tree::Tree;

/// A run that may begin: its program, the method with which it begins, and the names of the structs and of the methods (`Class.Method`),
/// in order of the text.
#[derive(Drop)]
pub(crate) struct Begun {
    pub(crate) program: Program,
    pub(crate) method: MethodId,
    pub(crate) structs: Vec<String>,
    pub(crate) methods: Vec<Vec<u8>>,
}

/// Returns the run of a text that begins with the entry. `None` if the text has no such method, or a run may not
/// begin with it.
pub(crate) fn enter(alloc: Global, text: &[u8], entry: &[u8]) -> Result<Option<Begun>, Refused>
    ensures begun { IfOk result (ComesIn text.now entry.now) }
    ensures refused { IfErr result (IsRefused text.now) }
{
    let (methods, tree) = methods_of(alloc, text)?;
    match judged_program(alloc, methods) {
        Ok(program) => Ok(enter_method(alloc, text, &tree, program, entry)?),
        Err(refused) => Err(refused),
    }
}

/// Looks up the entry in a program without findings before its methods.
fn enter_method(
    alloc: Global,
    text: &[u8],
    tree: &Tree,
    program: Program,
    entry: &[u8],
) -> Result<Option<Begun>, Memory>
    requires program { HasCleanNames text.now (program_tree tree.now) (model_of program) }
    requires sound { All (λ c. IsSound c.parts) (model_of program).contracts }
    requires few { length (model_of program).methods ≤ MOST_METHODS }
    ensures { IfOk result (ComesIn text.now entry.now) }
{
    let Some(method) = entry_of(&program, entry_index(text, tree, entry)) else {
        return Ok(None);
    };
    let structs = struct_names(alloc, text, tree)?;
    let methods = method_names(alloc, text, tree)?;
    Ok(Some(Begun {
        program,
        method,
        structs,
        methods,
    }))
}

/// Returns the method with this index, if there is one and a run may begin with it.
fn entry_of(program: &Program, index: Option<usize>) -> Option<MethodId>
    ensures some { IfSome result (λ id. (index ≡ Some id.0) × MayBegin (model_of program.now) id.0) }
    ensures none { IfNone result ((n : ℕ) → index ≡ Some n → ¬ MayBegin (model_of program.now) n) }
{
    let index = index?;
    if index >= program.methods().len() {
        return None;
    }
    let method = MethodId(index as u32);
    if program.is_entry(method) {
        Some(method)
    } else {
        None
    }
}
