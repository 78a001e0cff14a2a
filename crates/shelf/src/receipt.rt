//! The receipt of a verdict.

use analyse::Verdict;
use boxcar::Pushed;

/// The receipt of a verdict, for the shelf on which it was put. Any thread may read the verdict by it for as long as the shelf lasts.
#[derive(Drop)]
pub struct Receipt {
    pub(crate) pushed: Pushed<Verdict>,
}
