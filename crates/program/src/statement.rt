//! Statements with a number for each variable of the exchange heap; scalars are left out.

use crate::call::{Call, Send};
use crate::number::{ContractId, MessageId, VarId};
use source::Place;

/// An occurrence of a variable of the exchange heap.
#[derive(Clone, Copy)]
pub struct Mention {
    pub variable: VarId,
    pub place: Place,
}

/// The variables of the exchange heap that go out of scope here: `last` is the last declared of them, `outer` the
/// last declared of those that stay in scope. Each variable knows the one before it in scope, so these two
/// determine all of them.
#[derive(Clone, Copy)]
pub struct Forget {
    pub place: Place,
    pub last: VarId,
    pub outer: Option<VarId>,
}

/// A new channel of a contract, and the variables that take its two ends. The place is that of the word `NewChannel`.
#[derive(Clone, Copy)]
pub struct Channel {
    pub place: Place,
    pub contract: ContractId,
    pub first: Mention,
    pub second: Mention,
}

/// Swaps what an owning field holds with what a variable has. The field is in the block that `holder` has, and its
/// number counts the owning fields of the struct. The place is that of the word `exchange`.
#[derive(Clone, Copy)]
pub struct Exchange {
    pub place: Place,
    pub holder: Mention,
    pub field: usize,
    pub given: Mention,
}

/// What one step does with what variables and fields have. The method continues after it.
#[derive(Clone, Copy)]
pub enum Action {
    /// Reads or writes a field or an element of what the variable has.
    Use(Mention),
    /// Moves what the source has to the target.
    Move { target: Mention, source: Mention },
    /// Frees what the variable has.
    Delete(Mention),
    /// Swaps what a field holds with what a variable has.
    Exchange(Exchange),
    /// Gives the two ends of a new channel to two variables.
    NewChannel(Channel),
}

/// What a simple statement does after its reads.
#[derive(Clone, Copy)]
pub enum Effect {
    /// Changes nothing but scalars.
    Nothing,
    /// Acts on what variables and fields have.
    Act(Action),
    /// Ends the innermost loop or switch. Variables declared by it or in it go out of scope.
    Break(Option<Forget>),
    /// Goes back to the test of the innermost loop. Variables declared in it go out of scope.
    Continue(Option<Forget>),
    /// Ends the method, which gives what `value` has, if there is one. `scope` is the last variable of the exchange
    /// heap in scope, which determines all of them.
    Return {
        place: Place,
        value: Option<Mention>,
        scope: Option<VarId>,
    },
}

/// A statement that contains no other: the variables whose blocks its expressions read, in order of the text, and
/// what it does then.
#[derive(Drop)]
pub struct Simple {
    pub reads: Vec<Mention>,
    pub effect: Effect,
}

/// A new struct or array: the variables whose blocks the length of an array reads, the variable that takes the new
/// block, and those given for the owning fields of a struct, in order.
#[derive(Drop)]
pub struct New {
    pub reads: Vec<Mention>,
    pub target: Mention,
    pub arguments: Vec<Mention>,
}

/// A statement. Large variants are boxed, so that an element of a list of statements stays small.
#[cycle(statement)]
#[derive(Drop)]
pub enum Statement {
    Simple(Simple),
    /// Gives a new block to a variable.
    New(New),
    /// Calls a method, and continues when it returns.
    Call(Box<Call>),
    /// Starts a method as a process of its own.
    Start(Box<Call>),
    /// Sends a message to the other end of a channel.
    Send(Send),
    Block(Block),
    If(Box<If>),
    While(Box<Test>),
    /// Waits for a message or the close of a channel at one of its endpoints. The place is that of the word `switch`.
    Switch { place: Place, cases: Vec<Case> },
}

/// Statements in order, and what goes out of scope after them.
#[cycle(statement)]
#[derive(Drop)]
pub struct Block {
    pub statements: Vec<Statement>,
    pub forget: Option<Forget>,
}

/// Which ways a condition can go.
#[derive(Clone, Copy)]
pub enum Ways {
    /// The condition may be true or false.
    Either,
    /// The condition is just `true`.
    Body,
    /// The condition is just `false`.
    Past,
}

/// A condition of an `if` or a `while` with its block: the place of that word, what the condition reads, which ways
/// it can go.
#[cycle(statement)]
#[derive(Drop)]
pub struct Test {
    pub place: Place,
    pub reads: Vec<Mention>,
    pub ways: Ways,
    pub body: Block,
}

/// Conditions in order, each evaluated if those before it were false, and the block to run if all were false.
#[cycle(statement)]
#[derive(Drop)]
pub struct If {
    pub first: Test,
    pub others: Vec<Test>,
    pub otherwise: Option<Block>,
}

/// What a case waits for at its endpoint.
#[derive(Clone, Copy)]
pub enum Awaited {
    /// A message.
    Message(MessageId),
    /// The other end is gone, and nothing is left to receive.
    Closed,
}

/// A case of a switch: its endpoint, what it waits for there, the variables that take what the message brings for
/// each of its parameters of the exchange heap, in order, and the statements to run then. These variables, too, go
/// out of scope after the case, at the place of the token that follows.
#[cycle(statement)]
#[derive(Drop)]
pub struct Case {
    pub endpoint: Mention,
    pub awaited: Awaited,
    pub targets: Vec<VarId>,
    pub body: Block,
}
