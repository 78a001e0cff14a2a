//! From a tree to numbers.

ghost use Rattle.std.specs.Prelude.{◌≡◌, ◌^◌, ◌<◌, length, IfErr, IfOk};
ghost use Rattle.tree.specs.Trees.{program_tree};
ghost use Rattle.tree.specs.Programs.{program};
ghost use Rattle.declarations.specs.Program.{ProgramText, program_of};
ghost use Rattle.declarations.specs.Scopes.{IsScope};
ghost use Rattle.names.specs.Findings.{program_mistakes};
ghost use Rattle.names.specs.Resolving.{AreMistakes, TellsMistakes, IsResolution};

use crate::fault::NameFaults;
use crate::items::judge_program;
use declarations::{Mistake, Scope, findings_of, resolve_contracts};
use program::Resolved;
use source::Memory;
use std::alloc::Global;
use tree::Tree;

/// Resolves a program to its contracts in order of the text, each with its messages, states and edges.
///
/// The tree is the one that `parse` makes of the text, spelled with fewer than 2^32 tokens. Messages and states are
/// each numbered from 0 through the whole program, so no two messages and no two states share a number. A named state
/// is numbered at its name, followed by the unnamed states of its paths. A name in an edge means the first declaration
/// of that name in its contract.
///
/// # Errors
/// `Found`, with all findings about names and types, if there is any; `Memory` if an allocation fails.
pub fn resolve(alloc: Global, tree: &Tree, text: &[u8]) -> Result<Resolved, NameFaults>
    requires { length (program (program_tree tree.now)) < 2 ^ 32 }
    ensures found { IfErr result (TellsMistakes (program_of text.now tree.now)) }
    ensures resolved { IfOk result (IsResolution (program_of text.now tree.now)) }
{
    match judge_names(alloc, tree, text)? {
        Ok(resolved) => Ok(resolved),
        Err(mistakes) => Err(NameFaults::Found(findings_of(alloc, text, &mistakes)?)),
    }
}

/// Returns the resolved program as `resolve` does, or, if there are any, all mistakes in its names and types in the order in which they are
/// judged. The findings of `resolve` are those of these mistakes, in the same order.
///
/// # Errors
/// `Memory` if an allocation fails.
pub fn judge_names(
    alloc: Global,
    tree: &Tree,
    text: &[u8],
) -> Result<Result<Resolved, Vec<Mistake>>, Memory>
    requires { length (program (program_tree tree.now)) < 2 ^ 32 }
    ensures mistakes { IfOk result (λ r. IfErr r (λ m. AreMistakes (program_of text.now tree.now) m.items)) }
    ensures resolved { IfOk result (λ r. IfOk r (IsResolution (program_of text.now tree.now))) }
{
    let scope = Scope::of(alloc, text, &tree.items)?;
    let mistakes = mistakes_in(alloc, &scope)?;
    if mistakes.is_empty() {
        Ok(Ok(Resolved {
            contracts: resolve_contracts(alloc, &scope)?,
        }))
    } else {
        Ok(Err(mistakes))
    }
}

/// Returns all mistakes in the names and types in scope.
fn mistakes_in(alloc: Global, scope: &Scope<'_>) -> Result<Vec<Mistake>, Memory>
    ensures { IfOk result (λ mistakes. (p : ProgramText) → IsScope p scope.now → mistakes.items ≡ program_mistakes p) }
{
    let mut found = Vec::new(alloc);
    judge_program(alloc, scope, &mut found)?;
    Ok(found)
}
