//! Mistakes in the names of contracts.

ghost use Rattle.std.specs.Prelude.{◌≡◌, ◌++◌, map, IfOk, OnOk};
ghost use Rattle.std.specs.List.{flat_map};
ghost use Rattle.tree.specs.Trees.{ContractTree};
ghost use Rattle.declarations.specs.ContractMistakes.{contract_mistakes};
ghost use Rattle.declarations.specs.ItemMistakes.{counted_mistakes};
ghost use Rattle.declarations.specs.Mistakes.{Adds};
ghost use Rattle.declarations.specs.Program.{ProgramText};
ghost use Rattle.declarations.specs.Scopes.{IsScope, IsDeclared, declared_among};

use crate::counted::{all_counted, are_few};
use crate::judging::{judge_limit, judge_twice};
use crate::members::{Declared, Members};
use crate::message_types::judge_messages;
use crate::mistake::{Limit, Mistake};
use crate::scope::Scope;
use crate::state_paths::judge_states;
use source::{Memory, Span};
use std::alloc::{AllocError, Global};

/// Adds the mistakes in the names of a contract.
///
/// # Errors
/// `Memory` if an allocation fails.
pub fn judge_contract(
    alloc: Global,
    scope: &Scope<'_>,
    declared: &Declared<'_>,
    found: &mut Vec<Mistake>,
) -> Result<(), Memory>
    ensures { (p : ProgramText) (contract : ContractTree) → IsScope p scope.now → IsDeclared p.text contract declared.now
        → OnOk result (Adds found.old.items found.new.items (contract_mistakes p contract)) }
{
    let messages = declared.outline.message_names(alloc)?;
    judge_twice(scope.text, &declared.messages, &messages, found)?;
    let states = declared.outline.state_names(alloc)?;
    judge_twice(scope.text, &declared.states, &states, found)?;
    judge_messages(alloc, scope, &declared.outline.messages, found)?;
    judge_states(scope.text, declared, found)
}

/// Adds a mistake at the first contract past the limit, and one at the first state past the limit.
///
/// # Errors
/// `Memory` if an allocation fails.
pub fn judge_counted(
    alloc: Global,
    scope: &Scope<'_>,
    found: &mut Vec<Mistake>,
) -> Result<(), Memory>
    ensures { (p : ProgramText) → IsScope p scope.now → OnOk result (Adds found.old.items found.new.items (counted_mistakes p)) }
{
    let names = contract_names(alloc, &scope.members)?;
    judge_limit(Limit::Contracts, &names, found)?;
    if are_few(&scope.members, Limit::States.most()) {
        return Ok(());
    }
    let counted = all_counted(alloc, &scope.members)?;
    judge_limit(Limit::States, &counted, found)
}

/// Returns the names of the contracts among these items, in order.
fn contract_names(alloc: Global, items: &[Members<'_>]) -> Result<Vec<Span>, AllocError>
    ensures { IfOk result (λ names. names.items ≡ flat_map (λ m. map (λ d. d.outline.name) (declared_among m)) items.now) }
{
    let mut names = Vec::new(alloc);
    for item in items {
        add_name(&mut names, item)?;
    }
    Ok(names)
}

fn add_name(names: &mut Vec<Span>, item: &Members<'_>) -> Result<(), AllocError>
    ensures { OnOk result (names.new.items ≡ names.old.items ++ map (λ d. d.outline.name) (declared_among item.now)) }
{
    match item {
        Members::Contract(declared) => Ok(names.push(declared.outline.name)?),
        _ => Ok(()),
    }
}
