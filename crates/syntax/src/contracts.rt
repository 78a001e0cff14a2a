//! Reads contracts.

ghost use Rattle.std.specs.Prelude.{◌≡◌, map};
ghost use Rattle.std.specs.List.{flat_map};
ghost use Rattle.tree.specs.Symbols.{kind_is, by_kind};
ghost use Rattle.syntax.specs.Reading.{ReadsList, Reads, ReadsEnded, many_at};
ghost use Rattle.tree.specs.Grammar.{message, member, contract};
ghost use Rattle.syntax.specs.Firsts.{opens_message, opens_member};
ghost use Rattle.syntax.specs.States.{state_on, member_at, members_on};
ghost use Rattle.tree.specs.Trees.{message_tree, member_tree, contract_tree};

use crate::cursor::{Cursor, Stuck};
use crate::fitted::push;
use crate::messages::{is_message, message};
use crate::states::state;
use source::Kind;
use std::alloc::Global;
use tree::{Contract, Member, Message};

/// contract = "contract" ID "{" { message } state { member } "}" .
pub fn contract(alloc: Global, cursor: &mut Cursor<'_>) -> Result<Contract, Stuck>
    ensures { ReadsEnded contract_tree contract cursor.old cursor.new result }
{
    cursor.expect(Kind::Contract)?;
    let name = cursor.name()?;
    cursor.expect(Kind::OpenBrace)?;
    let messages = messages(alloc, cursor)?;
    let state = state(alloc, cursor)?;
    let members = members(alloc, cursor)?;
    let close = cursor.expect_span(Kind::CloseBrace)?;
    Ok(Contract {
        name,
        messages,
        state,
        members,
        close,
    })
}

/// { message }
fn messages(alloc: Global, cursor: &mut Cursor<'_>) -> Result<Vec<Message>, Stuck>
    ensures { ReadsList message_tree message opens_message cursor.old cursor.new result }
{
    let mut all = Vec::new(alloc);
    'each: while is_message(cursor.peek()) {
        push(&mut all, message(alloc, cursor)?)?;
    }
    Ok(all)
}

/// Returns whether a member begins with this token.
fn is_member(kind: Option<Kind>) -> bool
    ensures { result ≡ opens_member kind }
{
    matches!(kind, Some(Kind::In | Kind::Out | Kind::State))
}

/// { member }
fn members(alloc: Global, cursor: &mut Cursor<'_>) -> Result<Vec<Member>, Stuck>
    ensures { Reads (λ v. map member_tree v.items) (flat_map member) members_on (many_at (by_kind opens_member) member_at)
        cursor.old cursor.new result }
{
    let mut all = Vec::new(alloc);
    'each: while is_member(cursor.peek()) {
        push(&mut all, member(alloc, cursor)?)?;
    }
    Ok(all)
}

/// member = message | state .
fn member(alloc: Global, cursor: &mut Cursor<'_>) -> Result<Member, Stuck>
    ensures { Reads member_tree member state_on member_at cursor.old cursor.new result }
{
    if is_message(cursor.peek()) {
        Ok(Member::Message(message(alloc, cursor)?))
    } else {
        Ok(Member::State(state(alloc, cursor)?))
    }
}
