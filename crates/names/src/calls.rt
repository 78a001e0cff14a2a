//! Mistakes in the names and types of calls.

ghost use Rattle.std.specs.Prelude.{◌≡◌, ◌&&◌, ◌∷◌, ℕ, []};
ghost use Rattle.std.specs.Prelude.{Option, Some, OnOk};
ghost use Rattle.tree.specs.Trees.{MethodTree, message_tree, method_tree};
ghost use Rattle.tree.specs.Values.{call_tree};
ghost use Rattle.names.specs.Expressions.{variable_of};
ghost use Rattle.declarations.specs.Mistakes.{Adds};
ghost use Rattle.declarations.specs.Program.{ProgramText, class_named};
ghost use Rattle.declarations.specs.Scopes.{IsScope, IsCallee};
ghost use Rattle.names.specs.Values.{argument_mistakes, result_fits, result_type, demand_of, start_mistakes, method_mistakes};
ghost use Rattle.declarations.specs.Owning.{can_start};
ghost use Rattle.names.specs.Values.{sends, is_alone, message_mistakes, contract_message, send_mismatch, send_mistakes};
ghost use Rattle.names.specs.Values.{class_mistakes, member_mistakes, call_mistakes};
ghost use Rattle.source.specs.declared.token.Span.{Span as SpanModel};
ghost use Rattle.names.specs.Operands.{AddsHere, shapes_of};
ghost use Rattle.names.specs.Frames.{AddsAround};

use crate::arguments::{judge_arguments, judge_typed_arguments};
use crate::operands::ask;
use crate::surroundings::{NameContext, Surroundings};
use crate::told::judge_count;
use crate::variables::ScopeVariables;
use declarations::{Callee, Demand, Mismatch, Mistake, NameSort, Scope, ValueType, add_unknown};
use program::{Direction, Side};
use source::{Memory, Span};
use tree::{Call, Expression, Message, Type};

/// What the result of a call is used for.
#[derive(Clone, Copy, PartialEq, Eq)]
pub(crate) enum Purpose {
    /// It is a value, which must be of this type.
    Asked(ValueType),
    /// The call is a statement of its own.
    Alone,
    /// The call is started.
    Started,
}

/// A call in its method, without the name before a dot.
#[derive(Clone, Copy)]
pub(crate) struct CallSite<'t> {
    purpose: Purpose,
    /// The name of the method or of the message.
    name: Span,
    arguments: &'t [Expression],
}

/// Returns whether the result of a method fits the purpose of the call.
fn result_fits(scope: &Scope<'_>, given: Option<Type>, purpose: Purpose) -> bool
    ensures { (p : ProgramText) → IsScope p scope.now → result ≡ result_fits p given purpose }
{
    match (given, purpose) {
        (_, Purpose::Started) => true,
        (None, Purpose::Alone) => true,
        (None, Purpose::Asked(_)) => false,
        (Some(written), Purpose::Alone) => !scope.type_meant(written).is_block(),
        (Some(written), Purpose::Asked(asked)) => scope.type_meant(written).agrees(asked),
    }
}

/// Returns the type of the result of a method; `Missing` if it has none.
fn type_given(scope: &Scope<'_>, given: Option<Type>) -> ValueType
    ensures { (p : ProgramText) → IsScope p scope.now → result ≡ result_type p given }
{
    match given {
        Some(written) => scope.type_meant(written),
        None => ValueType::Missing,
    }
}

/// Returns what is asked of the result of a call. A result that is no value must not be a block.
fn demand_of(purpose: Purpose) -> Demand
    ensures { result ≡ demand_of purpose }
{
    match purpose {
        Purpose::Asked(ty) => Demand::OfType(ty),
        _ => Demand::NoBlock,
    }
}

/// Adds that a method cannot be started, if the call starts it and it cannot.
fn judge_start(
    context: &NameContext<'_, '_>,
    startable: bool,
    site: &CallSite<'_>,
    found: &mut Vec<Mistake>,
) -> Result<(), Memory>
    ensures { (p : ProgramText) (m : MethodTree) → IsScope p context.now.scope.now → startable ≡ can_start m
        → OnOk result (Adds found.old.items found.new.items (start_mistakes m site.now.purpose site.now.name)) }
{
    match site.purpose {
        Purpose::Started if !startable => Ok(found.push(Mistake::NotStarted(site.name))?),
        _ => Ok(()),
    }
}

/// Adds the mistakes in a call of this method.
fn judge_known_method(
    context: &NameContext<'_, '_>,
    callee: Callee<'_>,
    site: &CallSite<'_>,
    found: &mut Vec<Mistake>,
) -> Result<(), Memory>
    ensures { let m = method_tree callee.entry.method.now in (class : Option SpanModel) → callee.entry.startable ≡ can_start m
        → AddsHere context.now found.old.items found.new.items result (λ s. method_mistakes s (Some m) class
        site.now.purpose site.now.name (shapes_of site.now.arguments.now)) }
{
    let NameContext {
        alloc,
        scope,
        variables,
    } = *context;
    let method = callee.method;
    let (place, arguments) = (site.name.place, site.arguments);
    judge_count(method.params.len(), arguments.len(), place, found)?;
    judge_typed_arguments(alloc, scope, variables, &method.params, arguments, found)?;
    judge_start(context, callee.startable, site, found)?;
    let fits = result_fits(scope, method.result, site.purpose);
    let given = type_given(scope, method.result);
    ask(
        fits,
        place,
        Mismatch::Given(demand_of(site.purpose), given),
        found,
    )
}

/// Adds that nothing declares this name, which is of this sort, and the mistakes in the arguments after it.
pub(crate) fn judge_unknown(
    context: &NameContext<'_, '_>,
    name: Span,
    sort: NameSort,
    arguments: &[Expression],
    found: &mut Vec<Mistake>,
) -> Result<(), Memory>
    ensures { AddsHere context.now found.old.items found.new.items result
        (λ s. Mistake.Unknown name sort
        ∷ argument_mistakes s [] (shapes_of arguments.now)) }
{
    let NameContext {
        scope,
        variables,
        ..
    } = *context;
    add_unknown(name, sort, found)?;
    judge_arguments(scope, variables, &[], arguments, found)
}

/// Adds the mistakes in a call of a method, or that nothing declares it. `class` is the class before the dot, if there is one.
fn judge_method(
    context: &NameContext<'_, '_>,
    callee: Option<Callee<'_>>,
    class: Option<Span>,
    site: &CallSite<'_>,
    found: &mut Vec<Mistake>,
) -> Result<(), Memory>
    ensures { (m : Option MethodTree) → IsCallee m callee.entry
        → AddsHere context.now found.old.items found.new.items result
        (λ s. method_mistakes s m class site.now.purpose site.now.name
        (shapes_of site.now.arguments.now)) }
{
    match callee {
        Some(callee) => judge_known_method(context, callee, site, found),
        None => judge_unknown(
            context,
            site.name,
            NameSort::Method(class),
            site.arguments,
            found,
        ),
    }
}

/// Returns whether this end sends what goes in this direction.
fn sends(end: Side, direction: Direction) -> bool
    ensures { result ≡ sends end direction }
{
    match (end, direction) {
        (Side::Imp, Direction::In) | (Side::Exp, Direction::Out) => true,
        _ => false,
    }
}

fn is_alone(purpose: Purpose) -> bool
    ensures { result ≡ is_alone purpose }
{
    matches!(purpose, Purpose::Alone)
}

/// Returns whether a call for this purpose at this end is a send in this direction.
fn is_sent(purpose: Purpose, end: Side, direction: Direction) -> bool
    ensures { result ≡ is_alone purpose && sends end direction }
{
    is_alone(purpose) && sends(end, direction)
}

/// Adds the mistakes in sending this message at this end.
fn judge_known_message(
    context: &NameContext<'_, '_>,
    message: &Message,
    end: Side,
    site: &CallSite<'_>,
    found: &mut Vec<Mistake>,
) -> Result<(), Memory>
    ensures { (n : ℕ) → AddsHere context.now found.old.items found.new.items result
        (λ s. message_mistakes s n
        (Some (message_tree message.now)) end site.now.purpose site.now.name
        (shapes_of site.now.arguments.now)) }
{
    let NameContext {
        alloc,
        scope,
        variables,
    } = *context;
    let (place, arguments) = (site.name.place, site.arguments);
    let well = is_sent(site.purpose, end, message.direction);
    ask(
        well,
        place,
        send_mismatch(site.purpose, end, site.name),
        found,
    )?;
    judge_count(message.params.len(), arguments.len(), place, found)?;
    judge_typed_arguments(alloc, scope, variables, &message.params, arguments, found)
}

/// Returns why this send at this end is wrong.
fn send_mismatch(purpose: Purpose, end: Side, word: Span) -> Mismatch
    ensures { result ≡ send_mismatch purpose end word }
{
    match purpose {
        Purpose::Alone => Mismatch::NotSent(end, word),
        Purpose::Started => Mismatch::SendStarted,
        Purpose::Asked(ty) => Mismatch::Given(Demand::OfType(ty), ValueType::Missing),
    }
}

/// Adds the mistakes in a send at an end of the contract that is item `index`.
fn judge_end(
    context: &NameContext<'_, '_>,
    index: usize,
    end: Side,
    site: &CallSite<'_>,
    found: &mut Vec<Mistake>,
) -> Result<(), Memory>
    ensures { AddsHere context.now found.old.items found.new.items result
        (λ s. message_mistakes s index
        (contract_message s index site.now.name) end site.now.purpose site.now.name
        (shapes_of site.now.arguments.now)) }
{
    match context.scope.sent_message(index, site.name) {
        Some(message) => judge_known_message(context, message, end, site, found),
        None => judge_unknown(
            context,
            site.name,
            NameSort::Sent(index),
            site.arguments,
            found,
        ),
    }
}

/// Adds the mistakes in a call on a variable of this type, which is a send.
fn judge_send(
    context: &NameContext<'_, '_>,
    ty: ValueType,
    variable: Span,
    site: &CallSite<'_>,
    found: &mut Vec<Mistake>,
) -> Result<(), Memory>
    ensures { AddsHere context.now found.old.items found.new.items result
        (λ s. send_mistakes s ty site.now.purpose variable site.now.name
        (shapes_of site.now.arguments.now)) }
{
    let NameContext {
        scope,
        variables,
        ..
    } = *context;
    match ty {
        ValueType::Endpoint(end, place) => judge_end(context, place, end, site, found),
        _ => {
            let mismatch = Mismatch::Given(Demand::Endpoint, ty);
            ask(ty.is_silent(), variable.place, mismatch, found)?;
            judge_arguments(scope, variables, &[], site.arguments, found)
        }
    }
}

/// Adds the mistakes in a call of a method of the class of this name.
fn judge_class(
    context: &NameContext<'_, '_>,
    class: Span,
    site: &CallSite<'_>,
    found: &mut Vec<Mistake>,
) -> Result<(), Memory>
    ensures { AddsHere context.now found.old.items found.new.items result
        (λ s. class_mistakes s (class_named s.program class) site.now.purpose class site.now.name
        (shapes_of site.now.arguments.now)) }
{
    match context.scope.class(class) {
        Some(methods) => {
            let callee = methods.find(context.scope.text, site.name);
            judge_method(context, callee, Some(class), site, found)
        }
        None => {
            let sort = NameSort::Front(context.variables.len());
            judge_unknown(context, class, sort, site.arguments, found)
        }
    }
}

/// Adds the mistakes in a call by two names: a send on a variable if one in scope has the first name, otherwise a
/// method of a class.
fn judge_member(
    context: &NameContext<'_, '_>,
    front: Span,
    site: &CallSite<'_>,
    found: &mut Vec<Mistake>,
) -> Result<(), Memory>
    ensures { AddsHere context.now found.old.items found.new.items result
        (λ s. member_mistakes s (variable_of s front) site.now.purpose front site.now.name
        (shapes_of site.now.arguments.now)) }
{
    match context.variables.find(context.scope.text, front) {
        Some(variable) => judge_send(context, variable.ty, front, site, found),
        None => judge_class(context, front, site, found),
    }
}

/// Adds the mistakes in a call.
pub(crate) fn judge_call<'a>(
    around: &Surroundings<'_, 'a>,
    variables: &ScopeVariables<'a>,
    purpose: Purpose,
    call: &Call,
    found: &mut Vec<Mistake>,
) -> Result<(), Memory>
    ensures { AddsAround around.now variables.now found.old.items found.new.items result
        (λ i. call_mistakes i purpose (call_tree call.now)) }
{
    let context = around.context(variables);
    match call.member {
        None => {
            let site = CallSite {
                purpose,
                name: call.name,
                arguments: &call.arguments,
            };
            let callee = around.methods.find(around.scope.text, call.name);
            judge_method(&context, callee, None, &site, found)
        }
        Some(name) => {
            let site = CallSite {
                purpose,
                name,
                arguments: &call.arguments,
            };
            judge_member(&context, call.name, &site, found)
        }
    }
}
