//! What statements that hold no others yield.

ghost use Rattle.std.specs.Prelude.{◌≡◌, ℕ, List, IfOk, OnOk, option_map};
ghost use Rattle.tree.specs.ExpressionTrees.{expression_tree, target_tree};
ghost use Rattle.tree.specs.StatementTrees.{declare_tree, plain_tree};
ghost use Rattle.tree.specs.Trees.{ItemTree};
ghost use Rattle.tree.specs.Values.{value_tree};
ghost use Rattle.declarations.specs.Program.{ProgramText};
ghost use Rattle.resolving.specs.Around.{IsAround, program_in};
ghost use Rattle.resolving.specs.Frames.{IsLocalFrame, staying_model};
ghost use Rattle.resolving.specs.Types.{type_held};
ghost use Rattle.resolving.specs.Locals.{LocalFrame, mention_of, next_number};
ghost use Rattle.resolving.specs.Steps.{TellsStatement};
ghost use Rattle.resolving.specs.Plain.{declaration_of, effect_on, first_value, frame_behind, plain_told};
ghost use Rattle.resolving.specs.Plain.{return_statement, write_statement};

use crate::around::Around;
use crate::calls::tell_start;
use crate::exchanges::exchange_of;
use crate::given::alone;
use crate::locals::{Declaration, Locals};
use crate::reads::add_reads;
use crate::sends::{channel_of, tell_stated};
use crate::staying::{Staying, tell_break, tell_continue};
use crate::types::type_held;
use crate::values::{statement_of, tell_assigned, tell_part, tell_read, unread};
use program::{Action, Effect, Mention, Role, Statement};
use source::Place;
use std::alloc::{AllocError, Global};
use tree::{Declare, Expression, Plain, Target, Value};

/// Returns the effect that frees what a variable has.
fn delete_effect(mention: Option<Mention>) -> Effect
    ensures { result ≡ effect_on Action.Delete mention }
{
    match mention {
        Some(mention) => Effect::Act(Action::Delete(mention)),
        None => Effect::Nothing,
    }
}

/// Returns the statement that an assignment yields.
fn tell_assign(
    text: &[u8],
    around: &Around<'_, '_>,
    locals: &Locals<'_>,
    target: &Target,
    value: &Value,
) -> Result<Statement, AllocError>
    ensures { (items : List ItemTree) (own : ℕ) → IsAround (program_in text.now items) own around.now
        → IfOk result (TellsStatement text.now locals.now
        (λ f. write_statement (program_in text.now items) own f (target_tree target.now) (value_tree value.now))) }
{
    match target {
        Target::Variable(name) => {
            let target = locals.mention(text, *name);
            tell_assigned(text, around, locals, target, value)
        }
        Target::Field(part) => {
            let whole = locals.mention(text, part.variable);
            let index = Vec::new(around.alloc);
            tell_part(text, around, locals, index, whole, value)
        }
        Target::Element(part) => {
            let whole = locals.mention(text, part.variable);
            let mut reads = Vec::new(around.alloc);
            add_reads(text, locals, &part.index, &mut reads)?;
            tell_part(text, around, locals, reads, whole, value)
        }
    }
}

/// Returns the variable that a declaration declares, if it is of the exchange heap.
fn declared_mention(
    text: &[u8],
    around: &Around<'_, '_>,
    locals: &Locals<'_>,
    declare: &Declare,
) -> Option<Mention>
    ensures { (items : List ItemTree) (own : ℕ) (f : LocalFrame) → IsAround (program_in text.now items) own around.now
        → IsLocalFrame text.now f locals.now → result ≡ option_map (mention_of declare.now.name)
        (next_number (type_held (program_in text.now items) declare.now.ty) f) }
{
    let variable = locals.next_number(type_held(&around.directory, declare.ty))?;
    Some(Mention {
        variable,
        place: declare.name.place,
    })
}

/// Returns the statement that a declaration yields: the variable takes the value, if there is one.
fn tell_declare(
    text: &[u8],
    around: &Around<'_, '_>,
    locals: &Locals<'_>,
    declare: &Declare,
) -> Result<Statement, AllocError>
    ensures { (items : List ItemTree) (own : ℕ) → IsAround (program_in text.now items) own around.now → IfOk result (TellsStatement
        text.now locals.now (λ f. first_value (program_in text.now items) own f declare.now.name (next_number
        (type_held (program_in text.now items) declare.now.ty) f) (option_map value_tree declare.now.value))) }
{
    match &declare.value {
        Some(value) => {
            let target = declared_mention(text, around, locals, declare);
            tell_assigned(text, around, locals, target, value)
        }
        None => Ok(unread(around.alloc, Effect::Nothing)),
    }
}

/// Returns the statement that a `return` yields.
fn tell_return(
    alloc: Global,
    text: &[u8],
    locals: &Locals<'_>,
    place: Place,
    value: &Option<Box<Expression>>,
) -> Result<Statement, AllocError>
    ensures { (items : List ItemTree) (own : ℕ) → IfOk result (TellsStatement text.now locals.now
        (λ f. return_statement (program_in text.now items) own f place (option_map (λ e. expression_tree e.value) value.now))) }
{
    let scope = locals.last();
    match value {
        Some(expression) => {
            let value = alone(text, locals, expression);
            let effect = Effect::Return {
                place,
                value,
                scope,
            };
            tell_read(text, locals, Vec::new(alloc), expression, effect)
        }
        None => {
            let value = None;
            Ok(unread(
                alloc,
                Effect::Return {
                    place,
                    value,
                    scope,
                },
            ))
        }
    }
}

/// Returns what a statement that holds no others yields.
pub(crate) fn tell_plain(
    text: &[u8],
    around: &Around<'_, '_>,
    locals: &Locals<'_>,
    stays: Staying,
    plain: &Plain,
) -> Result<Statement, AllocError>
    ensures { (items : List ItemTree) (own : ℕ) → IsAround (program_in text.now items) own around.now
        → IfOk result (TellsStatement text.now locals.now
        (λ f. plain_told (program_in text.now items) own f (staying_model stays) (plain_tree plain.now))) }
{
    let alloc = around.alloc;
    match plain {
        Plain::Declare(declare) => tell_declare(text, around, locals, declare),
        Plain::Assign(assign) => tell_assign(text, around, locals, &assign.target, &assign.value),
        Plain::Call(call) => tell_stated(text, around, locals, call),
        Plain::Start { call, .. } => tell_start(text, around, locals, call),
        Plain::Delete(name) => Ok(unread(alloc, delete_effect(locals.mention(text, *name)))),
        Plain::Exchange(exchange) => {
            Ok(statement_of(alloc, exchange_of(text, around, locals, **exchange)))
        }
        Plain::NewChannel(channel) => {
            Ok(statement_of(alloc, channel_of(text, around, locals, **channel)))
        }
        Plain::Break(word) => Ok(tell_break(alloc, locals, word.place, stays)),
        Plain::Continue(word) => Ok(tell_continue(alloc, locals, word.place, stays)),
        Plain::Return { word, value } => tell_return(alloc, text, locals, word.place, value),
    }
}

/// Returns what a declaration declares.
fn declaration_of(around: &Around<'_, '_>, declare: &Declare) -> Declaration
    ensures { (p : ProgramText) (own : ℕ) → IsAround p own around.now → result ≡ declaration_of p (declare_tree declare.now) }
{
    Declaration {
        name: declare.name,
        ty: around.directory.scope.type_meant(declare.ty),
        held: type_held(&around.directory, declare.ty),
        role: Role::Local,
    }
}

/// Declares the variable that a statement declares, if it is a declaration.
pub(crate) fn declare_in<'a>(
    text: &'a [u8],
    around: &Around<'_, '_>,
    locals: &mut Locals<'a>,
    plain: &Plain,
) -> Result<(), AllocError>
    ensures { (items : List ItemTree) (own : ℕ) (f : LocalFrame) → IsAround (program_in text.now items) own around.now
        → IsLocalFrame text.now f locals.old → OnOk result (IsLocalFrame text.now
        (frame_behind (program_in text.now items) own f (plain_tree plain.now)) locals.new) }
{
    match plain {
        Plain::Declare(declare) => {
            locals.declare(around.alloc, text, declaration_of(around, declare))
        }
        _ => Ok(()),
    }
}
