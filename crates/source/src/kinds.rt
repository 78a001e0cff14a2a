//! All kinds of token, and how they are written.

ghost use Rattle.std.specs.Prelude.{◌≡◌};
ghost use Rattle.source.specs.Words.{reserved_text, statement_text, text_of};

use crate::kind::Kind;

/// Every kind of token, in the order of the enum.
pub const ALL_KINDS: [Kind; 65] = [
    Kind::Name,
    Kind::Number,
    Kind::Bool,
    Kind::Break,
    Kind::Byte,
    Kind::Case,
    Kind::Class,
    Kind::ChannelClosed,
    Kind::Claims,
    Kind::Continue,
    Kind::Contract,
    Kind::Delete,
    Kind::Else,
    Kind::Exchange,
    Kind::Exp,
    Kind::ExHeap,
    Kind::False,
    Kind::If,
    Kind::Imp,
    Kind::In,
    Kind::Int,
    Kind::Internal,
    Kind::Message,
    Kind::New,
    Kind::NewChannel,
    Kind::One,
    Kind::Out,
    Kind::Private,
    Kind::Public,
    Kind::Receive,
    Kind::Rep,
    Kind::Return,
    Kind::Start,
    Kind::State,
    Kind::Static,
    Kind::Struct,
    Kind::Switch,
    Kind::True,
    Kind::Void,
    Kind::While,
    Kind::OpenBrace,
    Kind::CloseBrace,
    Kind::OpenParen,
    Kind::CloseParen,
    Kind::OpenBracket,
    Kind::CloseBracket,
    Kind::Semicolon,
    Kind::Colon,
    Kind::Comma,
    Kind::Dot,
    Kind::Star,
    Kind::Bang,
    Kind::Question,
    Kind::Equal,
    Kind::EqualEqual,
    Kind::NotEqual,
    Kind::Less,
    Kind::LessEqual,
    Kind::Greater,
    Kind::GreaterEqual,
    Kind::Plus,
    Kind::Minus,
    Kind::AndAnd,
    Kind::OrOr,
    Kind::Arrow,
];

/// Returns a symbol or a reserved word as it is written, or `""` for a name or a number.
pub fn text_of(kind: Kind) -> &'static str
    ensures { result.now ≡ text_of kind }
{
    match kind {
        Kind::OpenBrace => "{",
        Kind::CloseBrace => "}",
        Kind::OpenParen => "(",
        Kind::CloseParen => ")",
        Kind::OpenBracket => "[",
        Kind::CloseBracket => "]",
        Kind::Semicolon => ";",
        Kind::Colon => ":",
        Kind::Comma => ",",
        Kind::Dot => ".",
        Kind::Star => "*",
        Kind::Bang => "!",
        Kind::Question => "?",
        Kind::Equal => "=",
        Kind::EqualEqual => "==",
        Kind::NotEqual => "!=",
        Kind::Less => "<",
        Kind::LessEqual => "<=",
        Kind::Greater => ">",
        Kind::GreaterEqual => ">=",
        Kind::Plus => "+",
        Kind::Minus => "-",
        Kind::AndAnd => "&&",
        Kind::OrOr => "||",
        Kind::Arrow => "->",
        _ => reserved_word(kind),
    }
}

/// Returns a reserved word as it is written, or `""` for any other kind.
pub(crate) fn reserved_word(kind: Kind) -> &'static str
    ensures { result.now ≡ reserved_text kind }
{
    match kind {
        Kind::Bool => "bool",
        Kind::Byte => "byte",
        Kind::Class => "class",
        Kind::Claims => "Claims",
        Kind::Contract => "contract",
        Kind::Exp => "Exp",
        Kind::ExHeap => "ExHeap",
        Kind::Imp => "Imp",
        Kind::In => "in",
        Kind::Int => "int",
        Kind::Internal => "internal",
        Kind::Message => "message",
        Kind::One => "one",
        Kind::Out => "out",
        Kind::Private => "private",
        Kind::Public => "public",
        Kind::Rep => "rep",
        Kind::State => "state",
        Kind::Static => "static",
        Kind::Struct => "struct",
        Kind::Void => "void",
        _ => reserved_in_statements(kind),
    }
}

/// Returns a reserved word of statements or expressions as it is written, or `""` for any other kind.
fn reserved_in_statements(kind: Kind) -> &'static str
    ensures { result.now ≡ statement_text kind }
{
    match kind {
        Kind::Break => "break",
        Kind::Case => "case",
        Kind::ChannelClosed => "ChannelClosed",
        Kind::Continue => "continue",
        Kind::Delete => "delete",
        Kind::Else => "else",
        Kind::Exchange => "exchange",
        Kind::False => "false",
        Kind::If => "if",
        Kind::New => "new",
        Kind::NewChannel => "NewChannel",
        Kind::Receive => "receive",
        Kind::Return => "return",
        Kind::Start => "start",
        Kind::Switch => "switch",
        Kind::True => "true",
        Kind::While => "while",
        _ => "",
    }
}
