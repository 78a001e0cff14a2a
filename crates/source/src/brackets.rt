//! The number of open brackets.

ghost use Rattle.std.specs.Prelude.{◌≡◌, ◌^◌, ◌+◌, ◌<◌};
ghost use Rattle.source.specs.Brackets.{depth_after};

use crate::kind::Kind;

/// The greatest number of brackets open at once.
pub(crate) const MAX_DEPTH: u32 = 100;

/// Returns the number of open brackets after a token, from the number before it.
pub(crate) fn after(depth: u32, kind: Kind) -> u32
    requires { depth + 1 < 2 ^ 32 }
    ensures { result ≡ depth_after depth kind }
{
    match kind {
        Kind::OpenBrace | Kind::OpenParen | Kind::OpenBracket => depth + 1,
        Kind::CloseBrace | Kind::CloseParen | Kind::CloseBracket => depth.saturating_sub(1),
        _ => depth,
    }
}
