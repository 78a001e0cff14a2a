//! What calls yield.

ghost use Rattle.std.specs.Prelude.{◌≡◌, ◌++◌, ℕ, List, None, IfOk, OnOk, map, option_map};
ghost use Rattle.tree.specs.ExpressionTrees.{expression_tree};
ghost use Rattle.tree.specs.Trees.{ItemTree};
ghost use Rattle.tree.specs.Values.{call_tree};
ghost use Rattle.program.specs.Statements.{call_model};
ghost use Rattle.resolving.specs.Around.{IsAround, callee_model, program_in};
ghost use Rattle.resolving.specs.Callees as model;
ghost use Rattle.resolving.specs.Callees.{method_at, method_of, member_callee, called_name};
ghost use Rattle.resolving.specs.Frames.{IsLocalFrame};
ghost use Rattle.resolving.specs.Locals.{LocalFrame, local_named};
ghost use Rattle.resolving.specs.Reads.{reads};
ghost use Rattle.resolving.specs.Steps.{AddsReads, TellsStatement, TellsCall};
ghost use Rattle.resolving.specs.Plain as told;
ghost use Rattle.resolving.specs.Plain.{argument_reads, call_told, argument_of};

use crate::around::Around;
use crate::given::alone;
use crate::locals::Locals;
use crate::methods::methods_of;
use crate::reads::add_reads;
use crate::values::unread;
use program::{Argument, Call, Effect, Mention, MethodId, Statement};
use source::Span;
use std::alloc::{AllocError, Global};
use tree::{Expression, Method, Parameter};

/// A method, and its number.
#[derive(Clone, Copy)]
pub(crate) struct NumberedMethod<'a> {
    pub(crate) id: MethodId,
    pub(crate) method: &'a Method,
}

/// Returns the first method of this name in the class that is item `class`.
fn method_at<'a>(
    text: &[u8],
    around: &Around<'_, 'a>,
    class: usize,
    name: Span,
) -> Option<NumberedMethod<'a>>
    ensures { (items : List ItemTree) (own : ℕ) → IsAround (program_in text.now items) own around.now
        → option_map callee_model result ≡ method_at (program_in text.now items) class name }
{
    let place = around.directory.scope.method_index(class, name)?;
    let item = around.items.get(class)?;
    let method = methods_of(&item.definition).get(place)?;
    let before = around.directory.before.get(class)?;
    Some(NumberedMethod {
        id: MethodId((before.methods + place) as u32),
        method,
    })
}

/// Returns the first method of the second name in the class of the first.
fn method_of<'a>(
    text: &[u8],
    around: &Around<'_, 'a>,
    class: Span,
    name: Span,
) -> Option<NumberedMethod<'a>>
    ensures { (items : List ItemTree) (own : ℕ) → IsAround (program_in text.now items) own around.now
        → option_map callee_model result ≡ method_of (program_in text.now items) class name }
{
    let class = around.directory.scope.class_index(class)?;
    method_at(text, around, class, name)
}

/// Returns the method that a call by two names means; `None` if a variable in scope has the first name.
fn member_callee<'a>(
    text: &[u8],
    around: &Around<'_, 'a>,
    locals: &Locals<'_>,
    class: Span,
    name: Span,
) -> Option<NumberedMethod<'a>>
    ensures { (items : List ItemTree) (own : ℕ) (f : LocalFrame) → IsAround (program_in text.now items) own around.now
        → IsLocalFrame text.now f locals.now → option_map callee_model result
        ≡ member_callee (program_in text.now items) (local_named text.now f.locals class) class name }
{
    if locals.is_in_scope(text, class) {
        return None;
    }
    method_of(text, around, class, name)
}

/// Returns the method that a call means.
fn callee_of<'a>(
    text: &[u8],
    around: &Around<'_, 'a>,
    locals: &Locals<'_>,
    call: &tree::Call,
) -> Option<NumberedMethod<'a>>
    ensures { (items : List ItemTree) (own : ℕ) (f : LocalFrame)
        → IsAround (program_in text.now items) own around.now → IsLocalFrame text.now f locals.now
        → option_map callee_model result ≡ model.callee (program_in text.now items) own f.locals (call_tree call.now) }
{
    match call.member {
        Some(name) => member_callee(text, around, locals, call.name, name),
        None => method_at(text, around, around.class, call.name),
    }
}

/// Returns the name of the method that is called.
fn called_name(call: &tree::Call) -> Span
    ensures { result ≡ called_name call.now.name call.now.member }
{
    match call.member {
        Some(name) => name,
        None => call.name,
    }
}

/// Adds what arguments read.
pub(crate) fn add_argument_reads(
    text: &[u8],
    locals: &Locals<'_>,
    arguments: &[Expression],
    found: &mut Vec<Mention>,
) -> Result<(), AllocError>
    ensures { (items : List ItemTree) (own : ℕ) → OnOk result (AddsReads text.now locals.now (λ f. argument_reads
        (program_in text.now items) own f (map expression_tree arguments.now)) found.old.items found.new.items) }
{
    for argument in arguments {
        add_reads(text, locals, argument, found)?;
    }
    Ok(())
}

/// Adds the argument for a parameter, if it is just a variable of the exchange heap.
fn add_given(
    parameter: Parameter,
    mention: Option<Mention>,
    found: &mut Vec<Argument>,
) -> Result<(), AllocError>
    ensures { OnOk result (found.new.items ≡ found.old.items ++ argument_of parameter mention) }
{
    if let Some(mention) = mention {
        let claimed = parameter.claims;
        found.push(Argument { mention, claimed })?;
    }
    Ok(())
}

/// Returns the arguments for the parameters of the exchange heap, in order.
fn arguments_of(
    alloc: Global,
    text: &[u8],
    locals: &Locals<'_>,
    parameters: &[Parameter],
    arguments: &[Expression],
) -> Result<Vec<Argument>, AllocError>
    ensures { (items : List ItemTree) (own : ℕ) (f : LocalFrame) → IsLocalFrame text.now f locals.now → IfOk result (λ list.
        list.items ≡ told.arguments (program_in text.now items) own f parameters.now (map expression_tree arguments.now)) }
{
    let mut given = Vec::new(alloc);
    for (parameter, argument) in parameters.iter().zip(arguments) {
        let mention = alone(text, locals, argument);
        add_given(*parameter, mention, &mut given)?;
    }
    Ok(given)
}

/// The use of the result of a call: the variable that takes it, and the variables that are used after it.
#[derive(Drop)]
pub(crate) struct ResultUse {
    pub(crate) target: Option<Mention>,
    pub(crate) behind: Vec<Mention>,
}

/// Returns what a call of this method yields.
fn call_of(
    alloc: Global,
    text: &[u8],
    locals: &Locals<'_>,
    call: &tree::Call,
    callee: NumberedMethod<'_>,
    after: ResultUse,
) -> Result<Call, AllocError>
    ensures { (items : List ItemTree) (own : ℕ) (f : LocalFrame) → IsLocalFrame text.now f locals.now
        → IfOk result (λ c. call_model c ≡ told.call_of (program_in text.now items) own f
        (call_tree call.now) after.target after.behind.items (callee_model callee.entry)) }
{
    let mut reads = Vec::new(alloc);
    add_argument_reads(text, locals, &call.arguments, &mut reads)?;
    let arguments = arguments_of(alloc, text, locals, &callee.method.params, &call.arguments)?;
    Ok(Call {
        reads,
        place: called_name(call).place,
        method: callee.id,
        arguments,
        target: after.target,
        behind: after.behind,
    })
}

/// Returns what a call yields, if it is a call of a method.
fn tell_called(
    text: &[u8],
    around: &Around<'_, '_>,
    locals: &Locals<'_>,
    call: &tree::Call,
    after: ResultUse,
) -> Result<Option<Call>, AllocError>
    ensures { (items : List ItemTree) (own : ℕ) → IsAround (program_in text.now items) own around.now
        → IfOk result (TellsCall text.now locals.now
        (λ f. call_told (program_in text.now items) own f (call_tree call.now) after.target after.behind.items)) }
{
    match callee_of(text, around, locals, call) {
        Some(callee) => {
            let call = call_of(around.alloc, text, locals, call, callee, after)?;
            Ok(Some(call))
        }
        None => Ok(None),
    }
}

/// Returns the statement that a call yields.
pub(crate) fn tell_call(
    text: &[u8],
    around: &Around<'_, '_>,
    locals: &Locals<'_>,
    call: &tree::Call,
    after: ResultUse,
) -> Result<Statement, AllocError>
    ensures { (items : List ItemTree) (own : ℕ) → IsAround (program_in text.now items) own around.now
        → IfOk result (TellsStatement text.now locals.now
        (λ f. told.call_statement (program_in text.now items) own f (call_tree call.now) after.target after.behind.items)) }
{
    match tell_called(text, around, locals, call, after)? {
        Some(call) => Ok(Statement::Call(Box::new(around.alloc, call)?)),
        None => Ok(unread(around.alloc, Effect::Nothing)),
    }
}

/// Returns the statement that a start yields.
pub(crate) fn tell_start(
    text: &[u8],
    around: &Around<'_, '_>,
    locals: &Locals<'_>,
    call: &tree::Call,
) -> Result<Statement, AllocError>
    ensures { (items : List ItemTree) (own : ℕ) → IsAround (program_in text.now items) own around.now → IfOk result (TellsStatement
        text.now locals.now (λ f. told.start_statement (program_in text.now items) own f (call_tree call.now))) }
{
    let behind = Vec::new(around.alloc);
    let after = ResultUse {
        target: None,
        behind,
    };
    match tell_called(text, around, locals, call, after)? {
        Some(call) => Ok(Statement::Start(Box::new(around.alloc, call)?)),
        None => Ok(unread(around.alloc, Effect::Nothing)),
    }
}
