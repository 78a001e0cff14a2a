//! Braces that are not closed.

ghost use Rattle.std.specs.Prelude.{◌≡◌, ◌≤◌, [], length, take, slice_get};
ghost use Rattle.expected.specs.OpenBraces.{open_braces};

use source::{Kind, Span, Tokens};

/// Returns the innermost `{` among the first `count` tokens of a text that none of them closes, or `None` if there
/// is none. Only `{` and `}` count. A `}` with no brace open closes nothing.
pub fn open_brace(tokens: &Tokens, count: usize) -> Option<Span>
    requires { count ≤ length tokens.now.list.items }
    ensures { result ≡ slice_get (open_braces [] (take count tokens.now.list.items)) 0 }
{
    let mut left = count;
    let mut closed: usize = 0;
    'tokens: while left > 0 {
        left -= 1;
        let token = tokens.list[left];
        match token.kind {
            Kind::CloseBrace => closed += 1,
            Kind::OpenBrace => {
                if closed == 0 {
                    return Some(token.span);
                }
                closed -= 1;
            }
            _ => {}
        }
    }
    None
}
