//! Reads access words.

ghost use Rattle.std.specs.Prelude.{◌≡◌};
ghost use Rattle.tree.specs.Symbols.{by_kind};
ghost use Rattle.tree.specs.Spelling.{word, optional};
ghost use Rattle.syntax.specs.Reading.{never, Takes, optional_at};
ghost use Rattle.tree.specs.Grammar.{access_word};
ghost use Rattle.syntax.specs.Firsts.{access_of, opens_access};

use crate::cursor::Cursor;
use source::Kind;
use tree::Access;

/// [ "public" | "private" | "internal" ]
pub fn access(cursor: &mut Cursor<'_>) -> Option<Access>
    ensures { Takes (optional (λ a. word (access_word a))) (optional_at (by_kind opens_access) (λ _. never))
        cursor.old cursor.new result }
{
    let access = access_of(cursor.peek())?;
    cursor.skip();
    Some(access)
}

/// Returns the access word that this token is, if it is one.
fn access_of(kind: Option<Kind>) -> Option<Access>
    ensures { result ≡ access_of kind }
{
    match kind {
        Some(Kind::Public) => Some(Access::Public),
        Some(Kind::Private) => Some(Access::Private),
        Some(Kind::Internal) => Some(Access::Internal),
        _ => None,
    }
}
