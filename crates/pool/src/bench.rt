//! A worker's seat and results.

use crate::done::Done;

/// A worker's seat, and what it has done in it.
#[derive(Drop)]
pub struct Bench<S, X> {
    pub(crate) seat: S,
    pub(crate) done: Vec<Done<X>>,
}
