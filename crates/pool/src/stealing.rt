//! Stealing from the deques of other workers.

ghost use Rattle.std.specs.Prelude.{◌≡◌, ◌<◌, ◌+◌, ℕ, [], ◌∷◌, OnOk, length};
ghost use Rattle.crossbeam_deque.specs.Steals.{MatchSteal};
ghost use Rattle.crossbeam_deque.specs.declared.steal.Steal.TheVariants.{Success};
ghost use Rattle.pool.specs.Counts.{Does, taken_by};
ghost use Rattle.pool.specs.Rounds.{AreRound};
ghost use Rattle.pool.specs.Rule.{copies};
ghost use Rattle.pool.specs.declared.held.HeldTask.{HeldTask as HeldModel};

use crate::bench::Bench;
use crate::deque::{TakesTask, Ticket};
use crate::gate::Gate;
use crate::held::HeldTask;
use crate::job::Job;
use crate::stints::Common;
use crate::working::run_one;
use crossbeam_deque::Steal;
use source::Memory;
use std::sync::Wait;

/// Tries to steal a task from the deque at an index.
fn steal_at<J: Job, G: Gate>(
    common: &Common<'_, J, G>,
    passes: &mut Vec<Ticket>,
    index: usize,
) -> Steal<HeldTask>
    requires index { index < length common.now.thieves.now }
    requires round { AreRound (J.takes common.now.job.now) common.now.thieves.now passes.old.items }
    ensures round { AreRound (J.takes common.now.job.now) common.now.thieves.now passes.new.items }
    ensures task { (held : HeldModel) → result ≡ Success held → J.takes common.now.job.now held.task }
    ensures taken { MatchSteal result ((n : ℕ) → taken_by n passes.new.items ≡ taken_by n passes.old.items)
        ((n : ℕ) → taken_by n passes.new.items ≡ taken_by n passes.old.items)
        (λ x. (n : ℕ) → taken_by n passes.new.items ≡ taken_by n passes.old.items + copies n (x ∷ [])) }
{
    let pass = &mut passes[index];
    common.thieves[index].steal_as::<TakesTask>(pass)
}

/// Steals tasks from the deque at an index until it is found empty.
///
/// # Errors
/// `Memory` if out of memory; no more tasks are taken then.
fn steal_from<J: Job, G: Gate, R: Wait>(
    rt: &R,
    common: &Common<'_, J, G>,
    index: usize,
    passes: &mut Vec<Ticket>,
    bench: &mut Bench<J::Seat, J::Out>,
) -> Result<(), Memory>
    requires index { index < length common.now.thieves.now }
    requires round { AreRound (J.takes common.now.job.now) common.now.thieves.now passes.old.items }
    requires seat { J.seats common.now.job.now bench.old.seat }
    ensures round { AreRound (J.takes common.now.job.now) common.now.thieves.now passes.new.items }
    ensures seat { J.seats common.now.job.now bench.new.seat }
    ensures does { OnOk result (Does (J.gives common.now.job.now) (λ n. taken_by n passes.old.items) (λ n. taken_by n passes.new.items)
        bench.old bench.new) }
{
    for _ in rt.forever() {
        match steal_at(common, passes, index) {
            Steal::Success(held) => run_one(common, held, bench)?,
            Steal::Empty => return Ok(()),
            Steal::Retry => {}
        }
    }
    unreachable!()
}

/// Goes round the deques of the other workers, from the next one on, and steals from each until it is found empty. Nothing is put into a
/// deque any more, so it stays empty.
///
/// # Errors
/// `Memory` if out of memory; no more tasks are taken then.
pub(crate) fn steal_round<J: Job, G: Gate, R: Wait>(
    rt: &R,
    common: &Common<'_, J, G>,
    own: usize,
    passes: &mut Vec<Ticket>,
    bench: &mut Bench<J::Seat, J::Out>,
) -> Result<(), Memory>
    requires few { length common.now.thieves.now < 1000 }
    requires own { own < length common.now.thieves.now }
    requires round { AreRound (J.takes common.now.job.now) common.now.thieves.now passes.old.items }
    requires seat { J.seats common.now.job.now bench.old.seat }
    ensures round { AreRound (J.takes common.now.job.now) common.now.thieves.now passes.new.items }
    ensures seat { J.seats common.now.job.now bench.new.seat }
    ensures does { OnOk result (Does (J.gives common.now.job.now) (λ n. taken_by n passes.old.items) (λ n. taken_by n passes.new.items)
        bench.old bench.new) }
{
    let count = common.thieves.len();
    for ahead in 1..count {
        steal_from(rt, common, (own + ahead) % count, passes, bench)?;
    }
    Ok(())
}
