//! The heads of cases: what they await, and what they bind.

ghost use Rattle.std.specs.Prelude.{◌≡◌, ◌++◌, ℕ, List, OnOk, option_map, slice_get};
ghost use Rattle.tree.specs.Trees.{ItemTree};
ghost use Rattle.declarations.specs.Types.{brought_type};
ghost use Rattle.declarations.specs.Program.{ProgramText};
ghost use Rattle.resolving.specs.Around.{IsAround, meant_model, program_in};
ghost use Rattle.resolving.specs.Binds as model;
ghost use Rattle.resolving.specs.Frames.{IsLocalFrame, number_model};
ghost use Rattle.resolving.specs.Locals.{LocalFrame};
ghost use Rattle.resolving.specs.Steps.{AddsBinds, TellsPiece};
ghost use Rattle.resolving.specs.Told as told;

use crate::around::Around;
use crate::locals::{Declaration, Locals};
use crate::messages::{Meant, message_named};
use crate::types::{heap_type, type_held};
use program::{Awaited, Mention, MessageId, Role, VarId};
use source::Span;
use std::alloc::{AllocError, Global};
use tree::{Bind, MessageParameter};

/// Returns the endpoint of a case.
pub(crate) fn case_endpoint(text: &[u8], locals: &Locals<'_>, name: Span) -> Mention
    ensures { (items : List ItemTree) (f : LocalFrame) → IsLocalFrame text.now f locals.now
        → result ≡ told.case_endpoint (program_in text.now items) f name }
{
    match locals.mention(text, name) {
        Some(mention) => mention,
        None => Mention {
            variable: VarId(0),
            place: name.place,
        },
    }
}

/// Returns the message that a case awaits.
pub(crate) fn awaited_message<'a>(
    text: &[u8],
    around: &Around<'_, 'a>,
    locals: &Locals<'_>,
    name: Span,
    awaited: tree::Awaited,
) -> Option<Meant<'a>>
    ensures { (items : List ItemTree) (own : ℕ) (f : LocalFrame)
        → IsAround (program_in text.now items) own around.now → IsLocalFrame text.now f locals.now
        → option_map meant_model result ≡ told.awaited_message (program_in text.now items) f name awaited }
{
    let tree::Awaited::Message(word) = awaited else {
        return None;
    };
    let contract = locals.contract(text, name)?;
    message_named(&around.directory, contract, word)
}

/// Returns what a case awaits, with the number of its message.
pub(crate) fn awaited_as(awaited: tree::Awaited, meant: Option<Meant<'_>>) -> Awaited
    ensures { result ≡ told.awaited_as awaited (option_map meant_model meant.entry) }
{
    match awaited {
        tree::Awaited::Message(_) => Awaited::Message(number_of(meant)),
        tree::Awaited::Closed(_) => Awaited::Closed,
    }
}

/// Returns the number of a message; 0 if there is none.
fn number_of(meant: Option<Meant<'_>>) -> MessageId
    ensures { result ≡ told.meant_number (option_map meant_model meant.entry) }
{
    match meant {
        Some(meant) => meant.id,
        None => MessageId(0),
    }
}

/// Returns the parameters whose values a case binds.
pub(crate) fn awaited_params<'a>(meant: Option<Meant<'a>>) -> &'a [MessageParameter]
    ensures { result.now ≡ told.awaited_params (option_map meant_model meant.entry) }
{
    match meant {
        Some(meant) => &meant.message.params,
        None => &[],
    }
}

/// Returns the type of a name that a case binds without one, for this parameter, if there is one.
fn brought_type(
    around: &Around<'_, '_>,
    param: Option<&MessageParameter>,
) -> declarations::ValueType
    ensures { (p : ProgramText) (own : ℕ) → IsAround p own around.now → result ≡ brought_type p (option_map (λ x. x.now) param.entry) }
{
    match param {
        Some(param) => around.directory.scope.type_meant(param.ty),
        None => declarations::ValueType::Unknown,
    }
}

/// Returns the declaration of a name that a case binds for this parameter, if there is one.
fn bind_declaration(
    around: &Around<'_, '_>,
    param: Option<&MessageParameter>,
    bind: Bind,
) -> Declaration
    ensures { (p : ProgramText) (own : ℕ) → IsAround p own around.now
        → result ≡ model.bound_as p (option_map (λ x. x.now) param.entry) bind.name bind.ty }
{
    let name = bind.name;
    let role = Role::Local;
    match bind.ty {
        Some(written) => Declaration {
            name,
            ty: around.directory.scope.type_meant(written),
            held: type_held(&around.directory, written),
            role,
        },
        None => {
            let ty = brought_type(around, param);
            let held = heap_type(&around.directory, ty, None);
            Declaration {
                name,
                ty,
                held,
                role,
            }
        }
    }
}

/// Adds the number of a variable, if it is of the exchange heap.
fn add_number(number: Option<VarId>, targets: &mut Vec<VarId>) -> Result<(), AllocError>
    ensures { OnOk result (targets.new.items ≡ targets.old.items ++ model.one_number (number_model number)) }
{
    if let Some(number) = number {
        targets.push(number)?;
    }
    Ok(())
}

/// Declares the name that a case binds for this parameter, if there is one. Adds its number if it is of the exchange heap.
fn declare_bind<'a>(
    text: &'a [u8],
    around: &Around<'_, '_>,
    locals: &mut Locals<'a>,
    param: Option<&MessageParameter>,
    bind: Bind,
    targets: &mut Vec<VarId>,
) -> Result<(), AllocError>
    ensures { (items : List ItemTree) (own : ℕ) (f : LocalFrame) → IsAround (program_in text.now items) own around.now
        → IsLocalFrame text.now f locals.old → OnOk result (AddsBinds text.now targets.old.items targets.new.items
        locals.new (model.bind_told (program_in text.now items) (option_map (λ x. x.now) param.entry) bind f)) }
{
    let declaration = bind_declaration(around, param, bind);
    let number = locals.next_number(declaration.held);
    add_number(number, targets)?;
    locals.declare(around.alloc, text, declaration)
}

/// Returns the parameter at this index, if there is one.
fn param_at(params: &[MessageParameter], index: usize) -> Option<&MessageParameter>
    ensures { option_map (λ x. x.now) result ≡ slice_get params.now index }
{
    params.get(index)
}

/// Declares the names that a case binds, for these parameters as far as there are any. Returns the numbers of those of
/// the exchange heap.
pub(crate) fn declare_binds<'a>(
    text: &'a [u8],
    around: &Around<'_, '_>,
    locals: &mut Locals<'a>,
    params: &[MessageParameter],
    binds: &[Bind],
) -> Result<Vec<VarId>, AllocError>
    ensures { TellsPiece text.now around.now locals.old locals.new (λ bound. bound.items) result
        (λ p own. model.binds_told p params.now binds.now) }
{
    let mut bound = Vec::new(around.alloc);
    for (index, bind) in binds.iter().enumerate() {
        let param = param_at(params, index);
        declare_bind(text, around, locals, param, *bind, &mut bound)?;
    }
    Ok(bound)
}
