//! What the items of a program declare, the mistakes in their names, and contracts in numbers.
#![tactic(auto)]

mod contracts;
mod counted;
mod edges;
mod fields;
mod indices;
mod items;
mod judging;
mod labels;
pub mod laws;
mod meaning;
mod members;
mod message_types;
mod mistake;
mod noted;
mod numbering;
mod outline;
mod resolving;
mod scope;
mod signatures;
mod starts;
mod state_names;
mod state_paths;
mod types;
mod value_type;

pub use contracts::{judge_contract, judge_counted};
pub use fields::Fields;
pub use items::{judge_items, judge_method_names, judge_struct};
pub use judging::{add_twice, add_unknown};
pub use members::{ClassMethods, Declared, Members};
pub use mistake::{Demand, Limit, Mismatch, Mistake, NameSort, findings_of};
pub use resolving::resolve_contracts;
pub use scope::Scope;
pub use starts::Callee;
pub use types::{is_heap, judge_type};
pub use value_type::ValueType;
