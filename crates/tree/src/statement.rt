//! Syntax trees of statements.

use crate::expression::{Expression, Target};
use crate::types::Type;
use crate::value::{Call, Value};
use source::Span;

/// block = "{" { statement } "}" .
#[cycle(statement)]
#[derive(Drop)]
pub struct Block {
    pub statements: Vec<Statement>,
    pub close: Span,
}

/// A statement. Variants larger than a block are boxed, so that an element of a list of statements stays small.
#[cycle(statement)]
#[derive(Drop)]
pub enum Statement {
    Block(Block),
    Plain(Plain),
    If(Box<If>),
    /// "while" "(" expression ")" block .
    While(Box<Test>),
    Switch(Box<Switch>),
}

/// A statement that contains no other. A word such as `break` or `return` is stored as its span.
#[derive(Drop)]
pub enum Plain {
    Declare(Box<Declare>),
    Assign(Box<Assign>),
    /// call ";" .
    Call(Box<Call>),
    /// "start" call ";" .
    Start {
        word: Span,
        call: Box<Call>,
    },
    /// "delete" ID ";" .
    Delete(Span),
    Exchange(Box<Exchange>),
    NewChannel(Box<NewChannel>),
    /// "break" ";" .
    Break(Span),
    /// "continue" ";" .
    Continue(Span),
    /// "return" [ expression ] ";" .
    Return {
        word: Span,
        value: Option<Box<Expression>>,
    },
}

/// declare = type ID [ "=" value ] ";" .
#[derive(Drop)]
pub struct Declare {
    pub ty: Type,
    pub name: Span,
    pub value: Option<Value>,
}

/// assign = target "=" value ";" .
#[derive(Drop)]
pub struct Assign {
    pub target: Target,
    pub value: Value,
}

/// exchange = "exchange" "(" ID "." ID "," ID ")" ";" .
#[derive(Clone, Copy)]
pub struct Exchange {
    pub word: Span,
    pub open: Span,
    pub holder: Span,
    pub field: Span,
    pub given: Span,
}

/// new_channel = ID "." "NewChannel" "(" "out" ID "," "out" ID ")" ";" .
#[derive(Clone, Copy)]
pub struct NewChannel {
    pub contract: Span,
    pub word: Span,
    pub open: Span,
    pub first: Span,
    pub second: Span,
}

/// "if" "(" expression ")" block { "else" "if" "(" expression ")" block } [ "else" block ] .
#[cycle(statement)]
#[derive(Drop)]
pub struct If {
    pub first: Test,
    pub others: Vec<Test>,
    pub otherwise: Option<Block>,
}

/// A condition of an `if` or a `while`, with the word before it and the block after it.
#[cycle(statement)]
#[derive(Drop)]
pub struct Test {
    pub word: Span,
    pub open: Span,
    pub test: Expression,
    pub body: Block,
}

/// switch = "switch" "receive" "{" case { case } "}" .
#[cycle(statement)]
#[derive(Drop)]
pub struct Switch {
    pub word: Span,
    pub first: Case,
    pub others: Vec<Case>,
    pub close: Span,
}

/// case = "case" ID "." ( ID | "ChannelClosed" ) "(" [ bind { "," bind } ] ")" ":" { statement } .
#[cycle(statement)]
#[derive(Drop)]
pub struct Case {
    pub word: Span,
    pub endpoint: Span,
    pub message: Awaited,
    pub open: Span,
    pub binds: Vec<Bind>,
    pub statements: Vec<Statement>,
}

/// What a case waits for.
#[derive(Clone, Copy)]
pub enum Awaited {
    Message(Span),
    Closed(Span),
}

/// bind = [ type ] ID .
#[derive(Clone, Copy)]
pub struct Bind {
    pub ty: Option<Type>,
    pub name: Span,
}
