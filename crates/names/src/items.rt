//! Mistakes in the names and types of a program.

ghost use Rattle.std.specs.Prelude.{◌≡◌, OnOk};
ghost use Rattle.std.specs.List.{flat_map};
ghost use Rattle.tree.specs.Trees.{DefinitionTree};
ghost use Rattle.declarations.specs.Mistakes.{Adds};
ghost use Rattle.declarations.specs.Program.{ProgramText};
ghost use Rattle.declarations.specs.Scopes.{IsScope, AreMembers};
ghost use Rattle.names.specs.Findings.{definition_mistakes, program_mistakes};

use crate::methods::judge_class;
use declarations::{
    Members, Mistake, Scope, judge_contract, judge_counted, judge_items, judge_struct,
};
use source::Memory;
use std::alloc::Global;

/// Adds all mistakes in the names and types of a program.
pub(crate) fn judge_program(
    alloc: Global,
    scope: &Scope<'_>,
    found: &mut Vec<Mistake>,
) -> Result<(), Memory>
    ensures { (p : ProgramText) → IsScope p scope.now → OnOk result (Adds found.old.items found.new.items (program_mistakes p)) }
{
    judge_items(alloc, scope, found)?;
    judge_counted(alloc, scope, found)?;
    judge_definitions(alloc, scope, found)
}

/// Adds the mistakes within each item.
fn judge_definitions(
    alloc: Global,
    scope: &Scope<'_>,
    found: &mut Vec<Mistake>,
) -> Result<(), Memory>
    ensures { (p : ProgramText) → IsScope p scope.now
        → OnOk result (Adds found.old.items found.new.items (flat_map (λ i. definition_mistakes p i.definition) p.items)) }
{
    for members in scope.members() {
        judge_definition(alloc, scope, members, found)?;
    }
    Ok(())
}

/// Adds the mistakes within an item.
fn judge_definition<'a>(
    alloc: Global,
    scope: &Scope<'a>,
    members: &Members<'a>,
    found: &mut Vec<Mistake>,
) -> Result<(), Memory>
    ensures { (p : ProgramText) (d : DefinitionTree) → IsScope p scope.now → AreMembers p.text d members.now
        → OnOk result (Adds found.old.items found.new.items (definition_mistakes p d)) }
{
    match members {
        Members::Contract(declared) => judge_contract(alloc, scope, declared, found),
        Members::Struct(fields) => judge_struct(alloc, scope, fields, found),
        Members::Class(methods) => judge_class(alloc, scope, methods, found),
    }
}
