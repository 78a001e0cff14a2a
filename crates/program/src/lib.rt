//! A program whose names are numbers, and when its methods are well formed.
#![tactic(auto)]

mod call;
mod contract;
pub mod laws;
mod limits;
mod method;
mod methods;
mod number;
mod statement;
mod types;

pub use call::{Argument, Call, Send};
pub use contract::{Contract, Direction, Edge, Message, Part, Resolved, Sign, State};
pub use limits::{
    MOST_CONTRACTS, MOST_FIELDS, MOST_METHODS, MOST_PARAMETERS, MOST_STATES, MOST_VARIABLES,
};
pub use method::{Method, Role, Variable};
pub use methods::Methods;
pub use number::{ContractId, MessageId, MethodId, StateId, StructId, VarId};
pub use statement::{
    Action, Awaited, Block, Case, Channel, Effect, Exchange, Forget, If, Mention, New, Simple,
    Statement, Test, Ways,
};
pub use types::{HeapType, Scalar, Side};
