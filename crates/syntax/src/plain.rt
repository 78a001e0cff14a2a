//! Reads statements that contain no other, by their first tokens.

ghost use Rattle.std.specs.Prelude.{◌≡◌, ◌≢◌, ◌++◌};
ghost use Rattle.tree.specs.Symbols.{kind_at};
ghost use Rattle.tree.specs.Spelling.{word, name};
ghost use Rattle.syntax.specs.Reading.{ReadsEnded};
ghost use Rattle.tree.specs.StatementTrees.{plain_tree};
ghost use Rattle.tree.specs.StatementGrammar.{plain};
ghost use Rattle.syntax.specs.StatementFirsts.{lead_of};

use crate::cursor::{Cursor, Stuck};
use crate::expressions::read_index;
use crate::leads::{Lead, PlainLead};
use crate::statement_ends::{
    assigned, called, channel_ends, declared, exchange, jump, return_statement, start,
};
use crate::types::{endpoint_end, is_side, pointer_tail, scalar_type};
use source::{Kind, Span};
use std::alloc::Global;
use tree::{
    Assign, Call, Declare, ElementTarget, FieldTarget, Heap, NewChannel, Plain, Target, Type,
};

/// Reads a statement that contains no other and begins with this lead.
pub fn plain(alloc: Global, cursor: &mut Cursor<'_>, lead: PlainLead) -> Result<Plain, Stuck>
    requires { lead_of (kind_at cursor.old) ≡ Some (Lead.Plain lead) }
    ensures { ReadsEnded plain_tree plain cursor.old cursor.new result }
{
    match lead {
        PlainLead::Name => {
            let name = cursor.name()?;
            after_name(alloc, cursor, name)
        }
        PlainLead::Scalar => {
            let ty = Type::from(scalar_type(cursor)?);
            let (name, value) = declared(alloc, cursor)?;
            let declare = Box::new(alloc, Declare { ty, name, value })?;
            Ok(Plain::Declare(declare))
        }
        PlainLead::Start => {
            let (word, call) = start(alloc, cursor)?;
            let call = Box::new(alloc, call)?;
            Ok(Plain::Start { word, call })
        }
        PlainLead::Delete => {
            cursor.expect(Kind::Delete)?;
            let name = cursor.name()?;
            cursor.expect(Kind::Semicolon)?;
            Ok(Plain::Delete(name))
        }
        PlainLead::Exchange => Ok(Plain::Exchange(Box::new(alloc, exchange(cursor)?)?)),
        PlainLead::Break => Ok(Plain::Break(jump(cursor, Kind::Break)?)),
        PlainLead::Continue => Ok(Plain::Continue(jump(cursor, Kind::Continue)?)),
        PlainLead::Return => {
            let (word, value) = return_statement(alloc, cursor)?;
            Ok(Plain::Return { word, value })
        }
    }
}

/// Reads the rest of a statement that begins with this name.
fn after_name(alloc: Global, cursor: &mut Cursor<'_>, first: Span) -> Result<Plain, Stuck>
    ensures { ReadsEnded plain_tree plain (name first ++ cursor.old) cursor.new result }
{
    if cursor.is_next(Kind::Star) {
        let bang = pointer_tail(cursor)?;
        let ty = Type::Heap(Heap::Pointer { name: first, bang });
        let (name, value) = declared(alloc, cursor)?;
        let declare = Box::new(alloc, Declare { ty, name, value })?;
        Ok(Plain::Declare(declare))
    } else if cursor.take_if(Kind::Dot) {
        after_dot(alloc, cursor, first)
    } else {
        after_variable(alloc, cursor, first)
    }
}

/// Reads the rest of a statement that begins with the name of a variable or a method, if neither a star nor a dot
/// is next.
fn after_variable(alloc: Global, cursor: &mut Cursor<'_>, first: Span) -> Result<Plain, Stuck>
    requires star { kind_at cursor.old ≢ Some Kind.Star }
    requires dot { kind_at cursor.old ≢ Some Kind.Dot }
    ensures { ReadsEnded plain_tree plain (name first ++ cursor.old) cursor.new result }
{
    if cursor.is_next(Kind::OpenParen) {
        let (open, arguments) = called(alloc, cursor)?;
        let call = Call {
            name: first,
            member: None,
            open,
            arguments,
        };
        Ok(Plain::Call(Box::new(alloc, call)?))
    } else if cursor.is_next(Kind::OpenBracket) {
        let element = ElementTarget {
            variable: first,
            index: read_index(alloc, cursor)?,
        };
        let target = Target::Element(Box::new(alloc, element)?);
        let value = assigned(alloc, cursor)?;
        let assign = Box::new(alloc, Assign { target, value })?;
        Ok(Plain::Assign(assign))
    } else {
        let value = assigned(alloc, cursor)?;
        let target = Target::Variable(first);
        let assign = Box::new(alloc, Assign { target, value })?;
        Ok(Plain::Assign(assign))
    }
}

/// Reads the rest of a statement that begins with this name and a dot.
fn after_dot(alloc: Global, cursor: &mut Cursor<'_>, first: Span) -> Result<Plain, Stuck>
    ensures { ReadsEnded plain_tree plain (name first ++ (word Kind.Dot ++ cursor.old))
        cursor.new result }
{
    if is_side(cursor.peek()) {
        let end = endpoint_end(cursor)?;
        let ty = Type::Heap(Heap::Endpoint {
            contract: first,
            side: end.side,
            state: end.state,
            bang: end.bang,
            in_heap: end.in_heap,
        });
        let (name, value) = declared(alloc, cursor)?;
        let declare = Box::new(alloc, Declare { ty, name, value })?;
        Ok(Plain::Declare(declare))
    } else if cursor.is_next(Kind::NewChannel) {
        let ends = channel_ends(cursor)?;
        let channel = NewChannel {
            contract: first,
            word: ends.word,
            open: ends.open,
            first: ends.first,
            second: ends.second,
        };
        Ok(Plain::NewChannel(Box::new(alloc, channel)?))
    } else {
        let member = cursor.name()?;
        after_member(alloc, cursor, first, member)
    }
}

/// Reads the rest of a statement that begins with these names and a dot between them.
fn after_member(
    alloc: Global,
    cursor: &mut Cursor<'_>,
    first: Span,
    member: Span,
) -> Result<Plain, Stuck>
    ensures { ReadsEnded plain_tree plain
        (name first ++ (word Kind.Dot ++ (name member ++ cursor.old))) cursor.new result }
{
    if cursor.is_next(Kind::OpenParen) {
        let (open, arguments) = called(alloc, cursor)?;
        let call = Call {
            name: first,
            member: Some(member),
            open,
            arguments,
        };
        Ok(Plain::Call(Box::new(alloc, call)?))
    } else {
        let value = assigned(alloc, cursor)?;
        let field = FieldTarget {
            variable: first,
            field: member,
        };
        let target = Target::Field(Box::new(alloc, field)?);
        let assign = Box::new(alloc, Assign { target, value })?;
        Ok(Plain::Assign(assign))
    }
}
