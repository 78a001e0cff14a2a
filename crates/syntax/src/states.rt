//! Reads states.

ghost use Rattle.std.specs.Prelude.{◌≡◌, map};
ghost use Rattle.std.specs.List.{flat_map};
ghost use Rattle.tree.specs.Symbols.{kind_is, by_kind, is_kind};
ghost use Rattle.tree.specs.Spelling.{word};
ghost use Rattle.syntax.specs.Reading.{ReadsMark, ReadsOption, ReadsList, Reads, ReadsEnded};
ghost use Rattle.tree.specs.Grammar.{sign_word, path, line, body, state};
ghost use Rattle.syntax.specs.Firsts.{sign_of, opens_sign};
ghost use Rattle.syntax.specs.States.{hop, lines, one, one_at, state_on, body_at, state_at};
ghost use Rattle.tree.specs.Trees.{path_tree, body_tree, state_tree};

use crate::cursor::{Cursor, Stuck};
use program::Sign;
use source::{Kind, Span};
use std::alloc::Global;
use tree::{Edge, Path, State, StateBody};

/// state = "state" ID ":" body .
pub fn state(alloc: Global, cursor: &mut Cursor<'_>) -> Result<State, Stuck>
    ensures { Reads state_tree state state_on state_at cursor.old cursor.new result }
{
    cursor.expect(Kind::State)?;
    let name = cursor.name()?;
    cursor.expect(Kind::Colon)?;
    let body = body(alloc, cursor)?;
    Ok(State { name, body })
}

/// body = one | line | ";" .
fn body(alloc: Global, cursor: &mut Cursor<'_>) -> Result<StateBody, Stuck>
    ensures { Reads body_tree body state_on body_at cursor.old cursor.new result }
{
    if cursor.is_next(Kind::One) {
        let ((paths, close), semicolon) = one(alloc, cursor)?;
        Ok(StateBody::One {
            paths,
            close,
            semicolon,
        })
    } else if cursor.is_next(Kind::Name) {
        Ok(StateBody::Path(line(alloc, cursor)?))
    } else {
        cursor.expect(Kind::Semicolon)?;
        Ok(StateBody::Empty)
    }
}

/// one = "one" lines [ ";" ] .
fn one(alloc: Global, cursor: &mut Cursor<'_>) -> Result<((Vec<Path>, Span), bool), Stuck>
    ensures { Reads (λ p. ((map path_tree p.0.0.items, p.0.1), p.1)) one state_on one_at cursor.old cursor.new result }
{
    cursor.expect(Kind::One)?;
    let paths = lines(alloc, cursor)?;
    let semicolon = cursor.take_if(Kind::Semicolon);
    Ok((paths, semicolon))
}

/// lines = "{" { line } "}" .
fn lines(alloc: Global, cursor: &mut Cursor<'_>) -> Result<(Vec<Path>, Span), Stuck>
    ensures { ReadsEnded (λ p. (map path_tree p.0.items, p.1)) lines cursor.old cursor.new result }
{
    cursor.expect(Kind::OpenBrace)?;
    let paths = line_list(alloc, cursor)?;
    let close = cursor.expect_span(Kind::CloseBrace)?;
    Ok((paths, close))
}

/// { line }
fn line_list(alloc: Global, cursor: &mut Cursor<'_>) -> Result<Vec<Path>, Stuck>
    ensures { ReadsList path_tree line (kind_is Kind.Name) cursor.old cursor.new result }
{
    let mut all = Vec::new(alloc);
    'each: while cursor.is_next(Kind::Name) {
        all.push(line(alloc, cursor)?)?;
    }
    Ok(all)
}

/// line = path ";" .
fn line(alloc: Global, cursor: &mut Cursor<'_>) -> Result<Path, Stuck>
    ensures { ReadsEnded path_tree line cursor.old cursor.new result }
{
    let path = path(alloc, cursor)?;
    cursor.expect(Kind::Semicolon)?;
    Ok(path)
}

/// The sign of an edge, its span, and the name after it.
#[derive(Clone, Copy)]
pub struct Hop {
    pub sign: Sign,
    pub mark: Span,
    pub target: Span,
}

/// path = ID hop { hop } : each name but the last is an edge's message.
fn path(alloc: Global, cursor: &mut Cursor<'_>) -> Result<Path, Stuck>
    ensures { Reads path_tree path (by_kind opens_sign) (λ _. by_kind opens_sign) cursor.old cursor.new result }
{
    let message = cursor.name()?;
    let hop = read_hop(cursor)?;
    let first = Edge {
        message,
        sign: hop.sign,
        mark: hop.mark,
    };
    let mut others = Vec::new(alloc);
    let mut target = hop.target;
    'each: while is_sign(cursor.peek()) {
        let next = read_hop(cursor)?;
        others.push(Edge {
            message: target,
            sign: next.sign,
            mark: next.mark,
        })?;
        target = next.target;
    }
    Ok(Path {
        first,
        others,
        target,
    })
}

/// Returns whether this token is a sign.
fn is_sign(kind: Option<Kind>) -> bool
    ensures { result ≡ opens_sign kind }
{
    sign_of(kind).is_some()
}

/// Returns the sign that this token is, if it is one.
fn sign_of(kind: Option<Kind>) -> Option<Sign>
    ensures { result ≡ sign_of kind }
{
    match kind {
        Some(Kind::Bang) => Some(Sign::Send),
        Some(Kind::Question) => Some(Sign::Receive),
        _ => None,
    }
}

/// hop = sign "->" ID .
fn read_hop(cursor: &mut Cursor<'_>) -> Result<Hop, Stuck>
    ensures { ReadsEnded (λ x. x) hop cursor.old cursor.new result }
{
    let (sign, mark) = sign(cursor)?;
    cursor.expect(Kind::Arrow)?;
    let target = cursor.name()?;
    Ok(Hop { sign, mark, target })
}

/// sign = "!" | "?" .
fn sign(cursor: &mut Cursor<'_>) -> Result<(Sign, Span), Stuck>
    ensures { ReadsMark sign_word cursor.old cursor.new result }
{
    let Some(sign) = sign_of(cursor.peek()) else {
        return Err(Stuck::Unexpected);
    };
    let mark = cursor.skip();
    Ok((sign, mark))
}
