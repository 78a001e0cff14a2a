//! What a variable takes, and what a value reads.

ghost use Rattle.std.specs.Prelude.{◌≡◌, ◌++◌, ℕ, List, [], IfOk, OnOk};
ghost use Rattle.tree.specs.ExpressionTrees.{expression_tree};
ghost use Rattle.tree.specs.Trees.{ItemTree};
ghost use Rattle.tree.specs.Values as values;
ghost use Rattle.tree.specs.Values.{call_tree, value_tree, made_tree};
ghost use Rattle.program.specs.Statements as seen;
ghost use Rattle.program.specs.Statements.{statement_model};
ghost use Rattle.resolving.specs.Around.{IsAround, program_in};
ghost use Rattle.resolving.specs.Steps.{AddsReads, TellsStatement};
ghost use Rattle.resolving.specs.Frames.{IsLocalFrame};
ghost use Rattle.resolving.specs.Locals.{LocalFrame};
ghost use Rattle.resolving.specs.Reads.{reads};
ghost use Rattle.resolving.specs.Plain.{assign_statement, effect_of, effect_on, made_arguments, made_reads, new_of};
ghost use Rattle.resolving.specs.Plain.{part_taken, scalar_taken, take_statement};

use crate::around::Around;
use crate::calls::{ResultUse, tell_call};
use crate::given::{add_listed, alone, payloads_of};
use crate::locals::Locals;
use crate::reads::add_reads;
use program::{Action, Effect, Mention, New, Simple, Statement};
use std::alloc::{AllocError, Global};
use tree::{Expression, Made, Value};

/// Returns the statement that reads these, and then has this effect.
fn simple_statement(reads: Vec<Mention>, effect: Effect) -> Statement
    ensures { statement_model result ≡ seen.Simple reads.items effect }
{
    Statement::Simple(Simple { reads, effect })
}

/// Returns a statement that reads nothing and has this effect.
pub(crate) fn unread(alloc: Global, effect: Effect) -> Statement
    ensures { statement_model result ≡ seen.Simple [] effect }
{
    simple_statement(Vec::new(alloc), effect)
}

/// Returns the effect of an action, if there is one.
fn effect_of(action: Option<Action>) -> Effect
    ensures { result ≡ effect_of action }
{
    match action {
        Some(action) => Effect::Act(action),
        None => Effect::Nothing,
    }
}

/// Returns a statement that reads nothing and does this action, if there is one.
pub(crate) fn statement_of(alloc: Global, action: Option<Action>) -> Statement
    ensures { statement_model result ≡ seen.Simple [] (effect_of action) }
{
    unread(alloc, effect_of(action))
}

/// Returns the effect by which the target takes what the source has, if there is a source.
fn move_effect(target: Mention, source: Option<Mention>) -> Effect
    ensures { result ≡ effect_on (Action.Move target) source }
{
    match source {
        Some(source) => Effect::Act(Action::Move { target, source }),
        None => Effect::Nothing,
    }
}

/// Returns the effect of writing a part of what the variable has.
fn use_effect(whole: Option<Mention>) -> Effect
    ensures { result ≡ effect_on Action.Use whole }
{
    match whole {
        Some(whole) => Effect::Act(Action::Use(whole)),
        None => Effect::Nothing,
    }
}

/// Adds what `new` reads: the length of an array.
fn add_made_reads(
    text: &[u8],
    locals: &Locals<'_>,
    made: &Made,
    found: &mut Vec<Mention>,
) -> Result<(), AllocError>
    ensures { (items : List ItemTree) (own : ℕ) → OnOk result (AddsReads text.now locals.now
        (λ f. made_reads (program_in text.now items) own f (made_tree made.now)) found.old.items found.new.items) }
{
    match made {
        Made::Struct { .. } => Ok(()),
        Made::Array { length, .. } => add_reads(text, locals, length, found),
    }
}

/// Returns the variables given for the owning fields of what `new` makes.
fn made_arguments(
    alloc: Global,
    text: &[u8],
    locals: &Locals<'_>,
    made: &Made,
) -> Result<Vec<Mention>, AllocError>
    ensures { (items : List ItemTree) (own : ℕ) (f : LocalFrame) → IsLocalFrame text.now f locals.now → IfOk result
        (λ given. given.items ≡ made_arguments (program_in text.now items) own f (made_tree made.now)) }
{
    match made {
        Made::Struct { arguments, .. } => payloads_of(alloc, text, locals, arguments),
        Made::Array { .. } => Ok(Vec::new(alloc)),
    }
}

/// Returns the statement that reads what is in `before` and what `new` reads, and then has this effect.
fn tell_made(
    text: &[u8],
    locals: &Locals<'_>,
    mut before: Vec<Mention>,
    made: &Made,
    effect: Effect,
) -> Result<Statement, AllocError>
    ensures { (items : List ItemTree) (own : ℕ) → IfOk result (TellsStatement text.now locals.now
        (λ f. seen.Simple (before.items ++ made_reads (program_in text.now items) own f (made_tree made.now)) effect)) }
{
    add_made_reads(text, locals, made, &mut before)?;
    Ok(simple_statement(before, effect))
}

/// Returns the statement by which the target takes a new block, with the variables given for its owning fields.
fn tell_new(
    alloc: Global,
    text: &[u8],
    locals: &Locals<'_>,
    target: Mention,
    made: &Made,
) -> Result<Statement, AllocError>
    ensures { (items : List ItemTree) (own : ℕ) → IfOk result (TellsStatement text.now locals.now
        (λ f. seen.New (new_of (program_in text.now items) own f target (made_tree made.now)))) }
{
    let mut reads = Vec::new(alloc);
    add_made_reads(text, locals, made, &mut reads)?;
    Ok(Statement::New(New {
        reads,
        target,
        arguments: made_arguments(alloc, text, locals, made)?,
    }))
}

/// Returns the statement that reads what is in `before` and an expression, and then has this effect.
pub(crate) fn tell_read(
    text: &[u8],
    locals: &Locals<'_>,
    mut before: Vec<Mention>,
    expression: &Expression,
    effect: Effect,
) -> Result<Statement, AllocError>
    ensures { IfOk result (TellsStatement text.now locals.now
        (λ f. seen.Simple (before.items ++ reads text.now f.locals (expression_tree expression.now)) effect)) }
{
    add_reads(text, locals, expression, &mut before)?;
    Ok(simple_statement(before, effect))
}

/// Returns the statement by which a variable of the exchange heap takes a value.
fn tell_taken(
    text: &[u8],
    around: &Around<'_, '_>,
    locals: &Locals<'_>,
    target: Mention,
    value: &Value,
) -> Result<Statement, AllocError>
    ensures { (items : List ItemTree) (own : ℕ) → IsAround (program_in text.now items) own around.now → IfOk result (TellsStatement
        text.now locals.now (λ f. take_statement (program_in text.now items) own f target (value_tree value.now))) }
{
    match value {
        Value::Expression(expression) => {
            let source = alone(text, locals, expression);
            Ok(unread(around.alloc, move_effect(target, source)))
        }
        Value::Call(call) => {
            let behind = Vec::new(around.alloc);
            let after = ResultUse {
                target: Some(target),
                behind,
            };
            tell_call(text, around, locals, call, after)
        }
        Value::New(new) => tell_new(around.alloc, text, locals, target, &new.made),
    }
}

/// Returns the statement by which a scalar takes a value.
fn tell_scalar(
    text: &[u8],
    around: &Around<'_, '_>,
    locals: &Locals<'_>,
    value: &Value,
) -> Result<Statement, AllocError>
    ensures { (items : List ItemTree) (own : ℕ) → IsAround (program_in text.now items) own around.now → IfOk result (TellsStatement
        text.now locals.now (λ f. scalar_taken (program_in text.now items) own f (value_tree value.now))) }
{
    let before = Vec::new(around.alloc);
    match value {
        Value::Expression(expression) => {
            tell_read(text, locals, before, expression, Effect::Nothing)
        }
        Value::Call(call) => {
            let after = ResultUse {
                target: None,
                behind: before,
            };
            tell_call(text, around, locals, call, after)
        }
        Value::New(new) => tell_made(text, locals, before, &new.made, Effect::Nothing),
    }
}

/// Returns the statement by which a variable takes a value: one of the exchange heap, or a scalar.
pub(crate) fn tell_assigned(
    text: &[u8],
    around: &Around<'_, '_>,
    locals: &Locals<'_>,
    target: Option<Mention>,
    value: &Value,
) -> Result<Statement, AllocError>
    ensures { (items : List ItemTree) (own : ℕ) → IsAround (program_in text.now items) own around.now → IfOk result (TellsStatement
        text.now locals.now (λ f. assign_statement (program_in text.now items) own f target (value_tree value.now))) }
{
    match target {
        Some(target) => tell_taken(text, around, locals, target, value),
        None => tell_scalar(text, around, locals, value),
    }
}

/// Returns the statement by which a part of what the variable has takes the result of a call. The reads of its index
/// and the use of the variable come after the call.
fn tell_part_called(
    text: &[u8],
    around: &Around<'_, '_>,
    locals: &Locals<'_>,
    mut index: Vec<Mention>,
    whole: Option<Mention>,
    call: &tree::Call,
) -> Result<Statement, AllocError>
    ensures { (items : List ItemTree) (own : ℕ) → IsAround (program_in text.now items) own around.now
        → IfOk result (TellsStatement text.now locals.now
        (λ f. part_taken (program_in text.now items) own f index.items whole (values.Call (call_tree call.now)))) }
{
    add_listed(whole, &mut index)?;
    let after = ResultUse {
        target: None,
        behind: index,
    };
    tell_call(text, around, locals, call, after)
}

/// Returns the statement by which a part of what the variable has takes a value. The index is read before the value,
/// or after it if that is a call.
pub(crate) fn tell_part(
    text: &[u8],
    around: &Around<'_, '_>,
    locals: &Locals<'_>,
    index: Vec<Mention>,
    whole: Option<Mention>,
    value: &Value,
) -> Result<Statement, AllocError>
    ensures { (items : List ItemTree) (own : ℕ) → IsAround (program_in text.now items) own around.now
        → IfOk result (TellsStatement text.now locals.now
        (λ f. part_taken (program_in text.now items) own f index.items whole (value_tree value.now))) }
{
    match value {
        Value::Expression(expression) => {
            tell_read(text, locals, index, expression, use_effect(whole))
        }
        Value::Call(call) => { tell_part_called(text, around, locals, index, whole, call) }
        Value::New(new) => tell_made(text, locals, index, &new.made, use_effect(whole)),
    }
}
