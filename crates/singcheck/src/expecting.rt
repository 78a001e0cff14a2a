//! Why a text is no program: the tokens with which it could have gone on.

ghost use Rattle.std.specs.Prelude.{◌≡◌, ◌++◌, ◌≤◌, IfOk, OnOk, List, ℕ, codes, length, map, slice_get};
ghost use Rattle.source.specs.Marks.{body_of};
ghost use Rattle.source.specs.Places.{place_of};
ghost use Rattle.source.specs.Tokens.{AreTokens};
ghost use Rattle.syntax.specs.Parsing.{IsFirstWrong};
ghost use Rattle.tree.specs.Programs.{program};
ghost use Rattle.explanations.specs.Explained.{explained_model};
ghost use Rattle.expected.specs.Expectations.{expectation_of};
ghost use Rattle.explanations.specs.Lines.{line, line_model};
ghost use Rattle.singcheck.specs.Unexpected.{AreExpectedLines, IsUnexpected, begins_item, brace_lines, likely_brace, wrong_span};

use crate::refusals::{finding_at, token_at};
use expected::{expectation, expected_kinds, fault_is_within, open_brace};
use explanations::{Explained, Line, is_asked};
use source::{Kind, Memory, Place, Span, Token, Tokens};
use std::alloc::Global;

/// Explains the first wrong token, which has this number, or the end: lists the tokens that could have been there,
/// and a brace that is likely not closed. If another place is named, there are no lines.
///
/// It takes the time of about 65 parses of the text.
///
/// # Errors
/// `Memory` if out of memory.
pub(crate) fn explain_at(
    alloc: Global,
    tokens: &Tokens,
    number: usize,
    named: Option<Place>,
) -> Result<Explained, Memory>
    requires wrong { IsFirstWrong program tokens.now.list.items number }
    ensures { (text : List ℕ) → AreTokens text tokens.now.list.items → tokens.now.end ≡ place_of (body_of text)
        → IfOk result (λ e. IsUnexpected named text (explained_model e)) }
{
    let finding = finding_at(alloc, tokens, number)?;
    if !is_asked(named, finding.place) {
        return Ok(Explained {
            finding,
            lines: Vec::new(alloc),
        });
    }
    let lines = expected_lines(alloc, tokens, number, finding.place)?;
    Ok(Explained { finding, lines })
}

/// Returns the lines of a wrong token at this place: the kinds of tokens that could have been there, and a brace that is
/// likely not closed.
fn expected_lines(
    alloc: Global,
    tokens: &Tokens,
    number: usize,
    place: Place,
) -> Result<Vec<Line>, Memory>
    requires wrong { IsFirstWrong program tokens.now.list.items number }
    ensures { IfOk result (λ lines. AreExpectedLines tokens.now.list.items number tokens.now.end place (map line_model lines.items)) }
{
    fault_is_within();
    let kinds = expected_kinds(alloc, tokens, number, span_at(tokens, number))?;
    let mut lines = Vec::new(alloc);
    lines.push(expectation_line(alloc, place, &kinds)?)?;
    add_brace(alloc, tokens, number, &mut lines)?;
    Ok(lines)
}

/// Returns the line that lists the expected kinds of tokens at a place.
fn expectation_line(alloc: Global, place: Place, kinds: &[Kind]) -> Result<Line, Memory>
    ensures { IfOk result (λ shown. line_model shown ≡ line place (expectation_of kinds.now)) }
{
    let text = expectation(alloc, kinds)?.into_bytes();
    Ok(Line { place, text })
}

/// Returns the span of the token with this number. If there is none, it is an empty span at the end.
fn span_at(tokens: &Tokens, number: usize) -> Span
    ensures { result ≡ wrong_span tokens.now.end (slice_get tokens.now.list.items number) }
{
    match token_at(tokens, number) {
        Some(token) => token.span,
        None => Span {
            start: 0,
            end: 0,
            place: tokens.end,
        },
    }
}

/// Adds the line of a brace that is likely not closed, if there is one.
fn add_brace(
    alloc: Global,
    tokens: &Tokens,
    number: usize,
    lines: &mut Vec<Line>,
) -> Result<(), Memory>
    requires within { number ≤ length tokens.now.list.items }
    ensures { OnOk result (map line_model lines.new.items
        ≡ map line_model lines.old.items ++ brace_lines tokens.now.list.items number) }
{
    if let Some(brace) = likely_brace(tokens, number) {
        lines.push(brace_line(alloc, brace.place)?)?;
    }
    Ok(())
}

/// Returns the line for a brace that is not closed.
fn brace_line(alloc: Global, place: Place) -> Result<Line, Memory>
    ensures { IfOk result (λ shown. line_model shown ≡ line place (codes "{ is not closed")) }
{
    let mut text = Vec::new(alloc);
    text.extend_from_slice(b"{ is not closed")?;
    Ok(Line { place, text })
}

/// Returns the innermost brace that is open before the token with this number, if that token begins a definition or a
/// method or there is no such token.
fn likely_brace(tokens: &Tokens, number: usize) -> Option<Span>
    requires within { number ≤ length tokens.now.list.items }
    ensures { result ≡ likely_brace tokens.now.list.items number }
{
    if begins_item(token_at(tokens, number)) {
        open_brace(tokens, number)
    } else {
        None
    }
}

/// Whether there is no token, or it begins a definition or a method.
fn begins_item(token: Option<Token>) -> bool
    ensures { result ≡ begins_item token }
{
    match token {
        None => true,
        Some(token) => matches!(
            token.kind,
            Kind::Class
                | Kind::Contract
                | Kind::Internal
                | Kind::Private
                | Kind::Public
                | Kind::Rep
                | Kind::Static
        ),
    }
}
