//! Statements by their first token.

ghost use Rattle.std.specs.Prelude.{◌≡◌};
ghost use Rattle.syntax.specs.StatementFirsts.{lead_of};

use source::Kind;

/// A statement by its first token.
#[derive(Clone, Copy)]
pub enum Lead {
    Block,
    If,
    While,
    Switch,
    Plain(PlainLead),
}

/// A statement that contains no other, by its first token.
#[derive(Clone, Copy)]
pub enum PlainLead {
    Name,
    Scalar,
    Start,
    Delete,
    Exchange,
    Break,
    Continue,
    Return,
}

/// Returns what a statement that begins with this token is, or `None` if none begins with it.
pub fn lead_of(kind: Option<Kind>) -> Option<Lead>
    ensures { result ≡ lead_of kind }
{
    match kind? {
        Kind::OpenBrace => Some(Lead::Block),
        Kind::If => Some(Lead::If),
        Kind::While => Some(Lead::While),
        Kind::Switch => Some(Lead::Switch),
        Kind::Name => Some(Lead::Plain(PlainLead::Name)),
        Kind::Int | Kind::Bool | Kind::Byte => Some(Lead::Plain(PlainLead::Scalar)),
        Kind::Start => Some(Lead::Plain(PlainLead::Start)),
        Kind::Delete => Some(Lead::Plain(PlainLead::Delete)),
        Kind::Exchange => Some(Lead::Plain(PlainLead::Exchange)),
        Kind::Break => Some(Lead::Plain(PlainLead::Break)),
        Kind::Continue => Some(Lead::Plain(PlainLead::Continue)),
        Kind::Return => Some(Lead::Plain(PlainLead::Return)),
        _ => None,
    }
}
