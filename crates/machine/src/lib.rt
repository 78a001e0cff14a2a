//! Worlds of processes, and one event of a process.
#![tactic(auto)]

mod acting;
mod calling;
mod changing;
mod choosing;
mod copying;
mod edges;
mod exchanging;
mod freeing;
mod giving;
mod halts;
mod heaps;
mod instructing;
mod keys;
pub mod laws;
mod mentions;
mod owning;
mod payloads;
mod placing;
mod quiet;
mod reading;
mod replaying;
mod returning;
mod sending;
mod standing;
mod starting;
mod stepping;
mod switching;
mod variables;
mod worlds;

pub use halts::{Event, Fault, Halt};
pub use mentions::type_at;
pub use owning::is_imp;
pub use payloads::payload_addresses;
pub use placing::place_of;
pub use reading::peer_of;
pub use replaying::{Replayed, replay};
pub use standing::instruction_at;
pub use variables::Variables;
pub use worlds::{Block, Frame, Held, Owner, Process, World};
