//! Mistakes in the parameters of messages.

ghost use Rattle.std.specs.Prelude.{◌≡◌, map, OnOk, IfOk};
ghost use Rattle.std.specs.List.{flat_map};
ghost use Rattle.tree.specs.Trees.{message_tree};
ghost use Rattle.declarations.specs.ContractMistakes.{message_mistakes, param_names};
ghost use Rattle.declarations.specs.Mistakes.{Adds};
ghost use Rattle.declarations.specs.Types.{type_unknown};
ghost use Rattle.declarations.specs.Program.{ProgramText};
ghost use Rattle.declarations.specs.Scopes.{IsScope};

use crate::judging::{judge_limit, judge_twice};
use crate::mistake::{Limit, Mistake};
use crate::scope::Scope;
use crate::types::judge_type;
use source::{Memory, Span};
use std::alloc::Global;
use tables::Table;
use tree::{Message, MessageParameter};

/// Adds the mistakes in the parameters of a message.
pub(crate) fn judge_message(
    alloc: Global,
    scope: &Scope<'_>,
    message: &Message,
    found: &mut Vec<Mistake>,
) -> Result<(), Memory>
    ensures { (p : ProgramText) → IsScope p scope.now
        → OnOk result (Adds found.old.items found.new.items (message_mistakes p (message_tree message.now))) }
{
    judge_types(scope, &message.params, found)?;
    let names = names_of(alloc, &message.params)?;
    let table = Table::of(alloc, scope.seed, scope.text, &names)?;
    judge_twice(scope.text, &table, &names, found)?;
    judge_limit(Limit::Parameters, &names, found)
}

fn judge_types(
    scope: &Scope<'_>,
    params: &[MessageParameter],
    found: &mut Vec<Mistake>,
) -> Result<(), Memory>
    ensures { (p : ProgramText) → IsScope p scope.now
        → OnOk result (Adds found.old.items found.new.items (flat_map (λ x. type_unknown p x.ty) params.now)) }
{
    for param in params {
        judge_type(scope, param.ty, found)?;
    }
    Ok(())
}

fn names_of(alloc: Global, params: &[MessageParameter]) -> Result<Vec<Span>, Memory>
    ensures { IfOk result (λ names. names.items ≡ param_names params.now) }
{
    let mut names = Vec::new(alloc);
    for param in params {
        names.push(param.name)?;
    }
    Ok(names)
}

/// Adds the mistakes in the parameters of these messages.
pub(crate) fn judge_messages(
    alloc: Global,
    scope: &Scope<'_>,
    messages: &[&Message],
    found: &mut Vec<Mistake>,
) -> Result<(), Memory>
    ensures { (p : ProgramText) → IsScope p scope.now → OnOk result
        (Adds found.old.items found.new.items (flat_map (message_mistakes p) (map (λ m. message_tree m.now) messages.now))) }
{
    for message in messages {
        judge_message(alloc, scope, message, found)?;
    }
    Ok(())
}
