//! The rule of a deque, and what each kind of step shows.

ghost use Rattle.std.specs.Prelude.{◌≡◌, ◌-◌, ◌+◌, ◌++◌, ℕ, []};
ghost use Rattle.pool.specs.Rule.{IsPart, Shares, copies, hand};

use crate::held::{Hand, HeldTask};
use crossbeam_deque::protocol::{Join, Outcome, Protocol, Split};
use crossbeam_deque::{Pass, Stealer, Worker};
use std::alloc::Global;

/// The rule of a deque between any two steps.
pub struct Sharing;

impl Protocol<HeldTask, Hand> for Sharing {
    ghost holds = { Shares };

    ghost first = { hand 1024 [] [] };

    ghost guest = { hand 0 [] [] };
}

/// A task is put. Only an owner with all parts puts, so all tasks are put before the first pass is cut off.
pub struct Puts;

impl Outcome<HeldTask, Hand> for Puts {
    ghost then = { λ v xs w. w ≡ hand v.parts (v.put ++ xs) v.taken };
}

/// A task is taken: it is one of those that were put.
pub struct TakesTask;

impl Outcome<HeldTask, Hand> for TakesTask {
    ghost then = { λ v xs w. (w ≡ hand v.parts v.put (v.taken ++ xs)) × IsPart v.put xs };
}

/// The same if all passes were taken back: an empty deque then shows that all that was put was taken.
pub struct Sweeps;

impl Outcome<HeldTask, Hand> for Sweeps {
    ghost then = { λ v xs w. (w ≡ hand v.parts v.put (v.taken ++ xs)) × IsPart v.put xs };

    ghost empty = { λ v. v.parts ≡ 1024 → (n : ℕ) → copies n v.put ≡ copies n v.taken };
}

/// One part is cut off, or a pass is taken back.
pub struct Cut;

impl Split<Hand> for Cut {
    ghost left = { λ v. hand (v.parts - 1) v.put v.taken };

    ghost right = { λ v. hand 1 v.put [] };
}

impl Join<Hand> for Cut {
    ghost both = { λ v w. hand (v.parts + w.parts) v.put (v.taken ++ w.taken) };

    ghost spent = { hand 0 [] [] };
}

/// The owner's side of a deque: it puts tasks, and takes them in their order.
pub(crate) type DequeOwner = Worker<HeldTask, Global, Hand, Sharing>;

/// The side of a deque by which other threads steal.
pub(crate) type Thief = Stealer<HeldTask, Global, Hand, Sharing>;

/// What a worker needs to steal from one deque, and what it knows of it.
pub(crate) type Ticket = Pass<HeldTask, Hand>;
