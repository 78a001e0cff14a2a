//! Mistakes in the cases of a switch.

ghost use Rattle.std.specs.Prelude.{◌≡◌, List, Some, [], take, if◌then◌else◌, OnOk, option_map};
ghost use Rattle.tree.specs.Trees.{message_tree};
ghost use Rattle.names.specs.Cases.{Head, awaited_mistakes, type_head_mistakes};
ghost use Rattle.names.specs.Cases.{other_mistakes, head_mistakes, binds_turn, awaited_message};
ghost use Rattle.declarations.specs.Declarations.{bound_params};
ghost use Rattle.declarations.specs.Mistakes.{Adds};
ghost use Rattle.names.specs.Frames.{IsContext, IsNameFrame, Turned};
ghost use Rattle.names.specs.Operands.{in_frame};
ghost use Rattle.names.specs.Bodies.{params_of_case};
ghost use Rattle.names.specs.Heads.{AddsBehind, IsHeads, case_head};
ghost use Rattle.declarations.specs.Types.{is_silent};
ghost use Rattle.declarations.specs.Program.{ProgramText};
ghost use Rattle.declarations.specs.Scopes.{IsScope};
ghost use Rattle.names.specs.Variables.{NameFrame, ScopeVariable};

use crate::awaits::{
    judge_case_twice, judge_closed, judge_lacking, judge_message_case, judge_other_head,
};
use crate::binds::judge_bound;
use crate::heads::{Heads, awaiting_at};
use crate::plain::{held_type, judge_use};
use crate::surroundings::NameContext;
use crate::variables::ScopeVariables;
use declarations::{Mistake, NameSort, Scope, ValueType, add_unknown};
use program::Side;
use source::{Memory, Span};
use tree::{Awaited, Case, Message, MessageParameter};

/// An end of a contract.
#[derive(Clone, Copy)]
struct ContractEnd {
    side: Side,
    /// The index of the contract among the items of the text.
    item: usize,
}

/// Adds the mistakes in the head of the case at this index in its switch.
pub(crate) fn judge_head<'a>(
    context: &NameContext<'_, 'a>,
    heads: &Heads<'a>,
    index: usize,
    case: &Case,
    found: &mut Vec<Mistake>,
) -> Result<(), Memory>
    ensures { (p : ProgramText) (f : NameFrame) (all : List Head) → IsContext p f context.now → IsHeads p.text all heads.now
        → OnOk result (Adds found.old.items found.new.items
        (head_mistakes (in_frame p f) all (take index all) (case_head case.now))) }
{
    let NameContext {
        scope,
        variables,
        ..
    } = *context;
    judge_use(scope, variables, case.endpoint, found)?;
    match held_type(scope, variables, case.endpoint) {
        ValueType::Endpoint(side, item) => {
            let end = ContractEnd { side, item };
            judge_endpoint_head(context, heads, index, end, case, found)
        }
        ty => judge_no_endpoint(ty, case, found),
    }
}

/// Adds the mistakes in the head of a case on this end of a contract.
fn judge_endpoint_head<'a>(
    context: &NameContext<'_, 'a>,
    heads: &Heads<'a>,
    index: usize,
    end: ContractEnd,
    case: &Case,
    found: &mut Vec<Mistake>,
) -> Result<(), Memory>
    ensures { (p : ProgramText) (f : NameFrame) (all : List Head) → IsScope p context.now.scope.now → IsHeads p.text all heads.now
        → OnOk result (Adds found.old.items found.new.items (type_head_mistakes (in_frame p f) all
        (take index all) (ValueType.Endpoint end.side end.item) (case_head case.now))) }
{
    let text = context.scope.text;
    let twice = heads.is_twice(text, index, awaiting_at(case));
    judge_awaited(context, end, twice, case, found)?;
    let lacking = heads.is_lacking(text, index, case.endpoint);
    judge_lacking(lacking, case.endpoint, found)
}

/// Adds the mistakes in what a case on this end awaits. `twice` is whether an earlier case awaits the same.
fn judge_awaited(
    context: &NameContext<'_, '_>,
    end: ContractEnd,
    twice: bool,
    case: &Case,
    found: &mut Vec<Mistake>,
) -> Result<(), Memory>
    ensures { AddsBehind context.now.scope.now twice (case_head case.now) found.old.items found.new.items result (λ s earlier.
        awaited_mistakes s earlier end.side end.item (case_head case.now) case.now.message) }
{
    match case.message {
        Awaited::Closed(word) => {
            judge_closed(&case.binds, word, found)?;
            judge_case_twice(twice, case.endpoint, case.message, found)
        }
        Awaited::Message(word) => judge_message(context, end, twice, word, case, found),
    }
}

/// Adds the mistakes in a case that awaits this message.
fn judge_message(
    context: &NameContext<'_, '_>,
    end: ContractEnd,
    twice: bool,
    word: Span,
    case: &Case,
    found: &mut Vec<Mistake>,
) -> Result<(), Memory>
    ensures { case.now.message ≡ Awaited.Message word
        → AddsBehind context.now.scope.now twice (case_head case.now) found.old.items found.new.items result (λ s earlier.
        awaited_mistakes s earlier end.side end.item (case_head case.now) (Awaited.Message word)) }
{
    match context.scope.message(end.item, word) {
        Some(message) => {
            judge_message_case(message, end.side, word, &case.binds, found)?;
            judge_case_twice(twice, case.endpoint, case.message, found)
        }
        None => add_unknown(word, NameSort::Message(Some(end.item)), found),
    }
}

/// Adds the mistakes in a case on a name that is no endpoint; none if its type is missing or unknown.
fn judge_no_endpoint(ty: ValueType, case: &Case, found: &mut Vec<Mistake>) -> Result<(), Memory>
    ensures { OnOk result (Adds found.old.items found.new.items
        (if is_silent ty then [] else other_mistakes ty (case_head case.now) case.now.message)) }
{
    if ty.is_silent() {
        return Ok(());
    }
    judge_other_head(ty, case.endpoint, case.message, &case.binds, found)
}

/// Adds the mistakes in what a case binds, and declares it.
pub(crate) fn judge_binds<'a>(
    scope: &Scope<'a>,
    variables: &mut ScopeVariables<'a>,
    case: &Case,
    found: &mut Vec<Mistake>,
) -> Result<(), Memory>
    ensures { (p : ProgramText) (f : NameFrame) → IsScope p scope.now → IsNameFrame p.text f variables.old → OnOk result
        (Turned p.text found.old.items found.new.items variables.new
        (binds_turn p (params_of_case (in_frame p f) (case_head case.now)) case.now.binds.items f)) }
{
    let binds = &case.binds;
    match held_type(scope, variables, case.endpoint) {
        ValueType::Endpoint(end, place) => {
            let message = awaited_message(scope, place, end, case.message);
            let parameters = parameters_of(message);
            judge_bound(scope, variables, parameters, binds, found)
        }
        _ => judge_bound(scope, variables, &[], binds, found),
    }
}

/// Returns the message that a case awaits at this end of the contract that is item `index`.
fn awaited_message<'a>(
    scope: &Scope<'a>,
    index: usize,
    end: Side,
    awaited: Awaited,
) -> Option<&'a Message>
    ensures { (p : ProgramText) (vs : List ScopeVariable) → IsScope p scope.now → option_map (λ m. message_tree m.now) result
        ≡ awaited_message (record { program = p; variables = vs }) (ValueType.Endpoint end index) awaited }
{
    match awaited {
        Awaited::Message(word) => scope.message(index, word),
        Awaited::Closed(_) => None,
    }
}

/// Returns the parameters of a message; none if there is no message.
fn parameters_of<'a>(message: Option<&'a Message>) -> &'a [MessageParameter]
    ensures { result.now ≡ bound_params (option_map (λ m. message_tree m.now) message.entry) }
{
    match message {
        Some(message) => &message.params,
        None => &[],
    }
}
