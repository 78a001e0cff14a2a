//! The kinds of tokens with which a program could continue.

ghost use Rattle.std.specs.Prelude.{◌≡◌, ◌≤◌, ◌↔◌, length, IfOk, OnOk, IsTrue, Contains};
ghost use Rattle.source.specs.declared.kind.Kind.{Kind};
ghost use Rattle.expected.specs.Expected.{IsExpected, IsSublist};

use source::laws::each_kind_is_listed;
use source::{ALL_KINDS, Kind, Memory, Span, Token, Tokens};
use std::alloc::Global;
use syntax::{SyntaxFault, parse};

/// Returns whether some program continues with a token of this kind, at `at`, after all of these. Returns `Memory`
/// if an allocation was refused; otherwise the tokens are as before.
fn goes_on(alloc: Global, front: &mut Tokens, at: Span, kind: Kind) -> Result<bool, Memory>
    ensures same { OnOk result (front.new.list.items ≡ front.old.list.items) }
    ensures exact { IfOk result (λ yes. IsTrue yes
        ↔ IsExpected front.old.list.items (length front.old.list.items) at kind) }
{
    let count = front.list.len();
    front.list.push(Token { kind, span: at })?;
    let found = parse(alloc, front);
    let _last = front.list.pop();
    match found {
        Ok(_tree) => Ok(true),
        Err(SyntaxFault::At(wrong)) => Ok(wrong > count),
        Err(SyntaxFault::Memory) => Err(Memory),
    }
}

/// Returns the kinds of tokens with which some program continues after the first `count` tokens of a text, in the
/// order of `ALL_KINDS`. A token of such a kind is assumed to be at `at`.
///
/// Each of the 65 kinds is tried: the first `count` tokens are parsed with a token of the kind after them. So the
/// call takes as long as 65 parses of the front of the text. Returns `Memory` if an allocation was refused.
pub fn expected_kinds(
    alloc: Global,
    tokens: &Tokens,
    count: usize,
    at: Span,
) -> Result<Vec<Kind>, Memory>
    requires { count ≤ length tokens.now.list.items }
    ensures exact { IfOk result (λ kinds. (kind : Kind) → Contains kinds.items kind
        ↔ IsExpected tokens.now.list.items count at kind) }
    ensures order { IfOk result (λ kinds. IsSublist kinds.items ALL_KINDS) }
{
    each_kind_is_listed();
    let mut front = Tokens {
        list: Vec::with_capacity(alloc, count + 1)?,
        end: tokens.end,
    };
    front.list.extend_from_slice(&tokens.list[..count])?;
    let mut kinds = Vec::new(alloc);
    for kind in &ALL_KINDS {
        if goes_on(alloc, &mut front, at, *kind)? {
            kinds.push(*kind)?;
        }
    }
    Ok(kinds)
}
