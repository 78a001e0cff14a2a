//! What is given: expressions that are just the name of a variable of the exchange heap.

ghost use Rattle.std.specs.Prelude.{◌≡◌, ◌++◌, ℕ, List, IfOk, OnOk, map};
ghost use Rattle.tree.specs.ExpressionTrees.{expression_tree};
ghost use Rattle.tree.specs.Trees.{ItemTree};
ghost use Rattle.resolving.specs.Around.{program_in};
ghost use Rattle.resolving.specs.Frames.{IsLocalFrame};
ghost use Rattle.resolving.specs.Locals.{LocalFrame};
ghost use Rattle.resolving.specs.Plain.{lone, payloads};
ghost use Rattle.resolving.specs.Reads.{mention_list};

use crate::locals::Locals;
use program::Mention;
use std::alloc::{AllocError, Global};
use tree::{Expression, name_alone};

/// Returns the variable that an expression names, if it is just the name of one of the exchange heap.
pub(crate) fn alone(text: &[u8], locals: &Locals<'_>, expression: &Expression) -> Option<Mention>
    ensures { (items : List ItemTree) (own : ℕ) (f : LocalFrame) → IsLocalFrame text.now f locals.now
        → result ≡ lone (program_in text.now items) own f (expression_tree expression.now) }
{
    let name = name_alone(expression)?;
    locals.mention(text, name)
}

/// Adds a variable of the exchange heap, if there is one.
pub(crate) fn add_listed(
    mention: Option<Mention>,
    found: &mut Vec<Mention>,
) -> Result<(), AllocError>
    ensures { OnOk result (found.new.items ≡ found.old.items ++ mention_list mention) }
{
    if let Some(mention) = mention {
        found.push(mention)?;
    }
    Ok(())
}

/// Returns the variables of the exchange heap among these arguments, in order. Each is an argument of its own.
pub(crate) fn payloads_of(
    alloc: Global,
    text: &[u8],
    locals: &Locals<'_>,
    arguments: &[Expression],
) -> Result<Vec<Mention>, AllocError>
    ensures { (items : List ItemTree) (own : ℕ) (f : LocalFrame) → IsLocalFrame text.now f locals.now → IfOk result
        (λ list. list.items ≡ payloads (program_in text.now items) own f (map expression_tree arguments.now)) }
{
    let mut payloads = Vec::new(alloc);
    for argument in arguments {
        let mention = alone(text, locals, argument);
        add_listed(mention, &mut payloads)?;
    }
    Ok(payloads)
}
