//! What a run reads and writes, and how it ends if it fails.
#![tactic(auto)]

mod device;
mod endings;
mod fault;
mod reading;
mod writing;

pub use device::{Counted, Failed, Sink, Source};
pub use endings::ending;
pub use fault::{CheckFault, Input, RunFault, Status};
pub use reading::{MAX_READ, read_text, read_up_to};
pub use writing::write_all;
