//! The laws. They hold for every program, whatever the code does.

ghost use Rattle.std.specs.Prelude.{◌≡◌, ℕ, map};
ghost use Rattle.contracts.specs.Sounds.{sound_parts};
ghost use Rattle.program.specs.Programs.{ProgramModel, contracts_model, program_model};
ghost use Rattle.program.specs.WellFormed.{AreWellFormed};
ghost use Rattle.machine.specs.Outcomes.{QueueBounds};
ghost use Rattle.machine.specs.Runs as graph_runs;
ghost use Rattle.machine.specs.Runs.{AreBounds};
ghost use Rattle.machine.specs.World as graph_world;
ghost use Rattle.semantics.specs.Events.{Run};
ghost use Rattle.semantics.specs.Worlds.{World};
ghost use Rattle.sound.specs.GraphSafe as graph_safe;
ghost use Rattle.sound.specs.GraphFit.{AreGraphsFit};
ghost use Rattle.sound.specs.Premises.{AreSound, IsEntry, NothingIsFound};
ghost use Rattle.sound.specs.Queues.{IsBounded};
ghost use Rattle.sound.specs.Safe.{IsSafe};

use contracts::{Sound, two_ends};
use program::Methods;

/// The graphs of well-formed methods fit. The operands of each instruction exist and have the right type, including
/// what is given for the fields of a new block and what is exchanged with a field. Each point has a scope, and what
/// leaves the scope is in the Forget of the instruction.
pub fn graphs_fit()
    ensures { (p : ProgramModel) → AreWellFormed p → AreGraphsFit p }
{}

/// In every run of the graphs of a program with sound contracts, whatever is found in its methods, queues keep to
/// their contracts and bounds.
pub(crate) fn graph_runs_are_bounded()
    ensures { (p : ProgramModel) (bound : QueueBounds) → AreWellFormed p → AreSound p
        → AreBounds p bound
        → (n : ℕ) (w : graph_world.World) → graph_runs.Run p bound n w → graph_safe.IsBounded p bound w }
{
    two_ends();
}

/// A program with sound contracts and without findings in its methods is safe in every run of its graphs.
pub(crate) fn graph_runs_are_safe()
    ensures { (p : ProgramModel) (bound : QueueBounds) → AreWellFormed p → AreSound p
        → AreBounds p bound
        → NothingIsFound p → (n : ℕ) (w : graph_world.World) → IsEntry p n → graph_runs.Run p bound n w
        → graph_safe.IsSafe p bound w }
{
    two_ends();
}

/// In every run of a program with sound contracts, whatever is found in its methods, each queue is a walk of its
/// contract and no longer than its bound, and no send exceeds a bound.
pub fn runs_are_bounded()
    ensures { (p : ProgramModel) (bound : QueueBounds) → AreWellFormed p → AreSound p
        → AreBounds p bound
        → (n : ℕ) (w : World) → Run p bound n w → IsBounded p bound w }
{
    graph_runs_are_bounded();
}

/// A program with sound contracts and without findings in its methods is safe in every run.
///
/// No event is a fault, each queue is a walk of its contract, a process holds exactly what it owns, what is cut off
/// stays cut off, and a process that has ended owns nothing. Each owning field of a block that is not freed holds a
/// block. That block is in no variable and in no other field, and no block is inside itself.
pub fn empty_report_is_safe()
    ensures { (p : ProgramModel) (bound : QueueBounds) → AreWellFormed p → AreSound p
        → AreBounds p bound
        → NothingIsFound p → (n : ℕ) (w : World) → IsEntry p n → Run p bound n w → IsSafe p bound w }
{
    graph_runs_are_safe();
}

/// The premises of `empty_report_is_safe` can be met together, as a double negation: some program, bounds and method
/// meet them.
pub fn premises_can_be_met()
    ensures { ((p : ProgramModel) (bound : QueueBounds) (n : ℕ) → AreWellFormed p → AreSound p
        → AreBounds p bound → NothingIsFound p → IsEntry p n → ⊥) → ⊥ }
{}

/// Methods without findings, with their contracts, are safe in every run. Both are values in memory, so their types
/// guarantee that the methods are well formed and the contracts sound.
pub fn clean_methods_are_safe(methods: &Methods, sounds: &[Sound])
    requires sound { map sound_parts sounds.now ≡ map (λ c. c.parts) (contracts_model methods.now) }
    ensures { (bound : QueueBounds) → AreBounds (program_model methods.now) bound → NothingIsFound (program_model methods.now)
        → (n : ℕ) (w : World) → IsEntry (program_model methods.now) n → Run (program_model methods.now) bound n w
        → IsSafe (program_model methods.now) bound w }
{
    methods.list();
    empty_report_is_safe();
}
