//! The lengths of comments.

ghost use Rattle.std.specs.Prelude.{◌≡◌, take, codes, Some, IfSome, IfNone};
ghost use Rattle.bstr.specs.Find.{FindsNeedle, Nowhere, OccursAt};
ghost use Rattle.source.specs.Cutting.{IsFirstPiece};
ghost use Rattle.source.specs.Faults.{IsOpenComment};
ghost use Rattle.source.specs.declared.comments.TheConstants.{NEAR};

use bstr::{ByteSlice, Finder};

/// Returns the length of the `//` comment at the front, which ends before the end of the line.
pub(crate) fn line_len(rest: &[u8]) -> usize
    requires { take 2 rest.now ≡ codes "//" }
    ensures { IsFirstPiece rest.now result }
{
    let body = &rest[2..];
    2 + body.find_byte(b'\n').unwrap_or(body.len())
}

/// Returns the length of the `/*` comment at the front, or `None` if it does not end. The search for its end starts
/// after these two bytes, so `/*/` does not end.
pub(crate) fn block_len(rest: &[u8], closing: &Finder<'_>) -> Option<usize>
    requires begins { take 2 rest.now ≡ codes "/*" }
    requires closing { closing.now ≡ codes "*/" }
    ensures some { IfSome result (IsFirstPiece rest.now) }
    ensures none { IfNone result (IsOpenComment rest.now) }
{
    let body = &rest[2..];
    if let Some(end) = near_closing(body) {
        return Some(end + 4);
    }
    let end = closing.find(body)?;
    Some(end + 4)
}

/// The number of bytes of a comment that are searched by hand first. A call to the search for its end costs as much
/// as some twenty bytes.
const NEAR: usize = 8;

/// Returns the index of the first `*/` if it begins within the first `NEAR` bytes.
fn near_closing(body: &[u8]) -> Option<usize>
    ensures some { IfSome result (λ end. FindsNeedle body.now (codes "*/") 0 (Some end)) }
    ensures none { IfNone result (Nowhere (OccursAt body.now (codes "*/")) 0 NEAR) }
{
    for i in 0..NEAR.min(body.len().saturating_sub(1)) {
        if body[i] == b'*' && body[i + 1] == b'/' {
            return Some(i);
        }
    }
    None
}
