//! Declarations and what names mean: a resolved program, in which every name is a number.
#![tactic(auto)]

mod arguments;
mod awaits;
mod binds;
mod calls;
mod cases;
mod exchanges;
mod expressions;
mod fault;
mod heads;
mod items;
pub mod laws;
mod mentions;
mod methods;
mod operands;
mod plain;
mod resolving;
mod statements;
mod surroundings;
mod targets;
mod terms;
mod told;
mod values;
mod variables;
mod wholes;

pub use declarations::{Demand, Limit, Mismatch, Mistake};
pub use fault::NameFaults;
pub use program::{
    ContractId, MOST_CONTRACTS, MOST_FIELDS, MOST_METHODS, MOST_PARAMETERS, MOST_STATES,
    MOST_VARIABLES, MessageId, MethodId, Resolved, StateId, VarId,
};
pub use resolving::{judge_names, resolve};
