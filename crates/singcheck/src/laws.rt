//! Laws of the answers. They hold for every text, whatever a run does.

ghost use Rattle.std.specs.Prelude.{◌≡◌, ℕ, List};
ghost use Rattle.machine.specs.Outcomes.{QueueBounds};
ghost use Rattle.machine.specs.Runs.{AreBounds};
ghost use Rattle.machine.specs.declared.halts.Event.{Event};
ghost use Rattle.replays.specs.Schedules.{IsSchedule};
ghost use Rattle.source.specs.Findings.{FindingModel};
ghost use Rattle.devices.specs.declared.fault.Status.{Status};
ghost use Rattle.devices.specs.declared.reading.TheConstants.{MAX_READ};
ghost use Rattle.singcheck.specs.Answers.{Answers, AreFindings, IsProgram};
ghost use Rattle.program.specs.Lists.{Each};
ghost use Rattle.program.specs.Programs.{ProgramModel};
ghost use Rattle.program.specs.WellFormed.{AreWellFormed};
ghost use Rattle.sound.specs.Premises.{AreSound};
ghost use Rattle.tree.specs.Trees.{ItemTree};
ghost use Rattle.wellformed.specs.Bare.{IsBare};
ghost use Rattle.wellformed.specs.Told.{program_told};
ghost use Rattle.singcheck.specs.Checks.{Checks, HasProgram};
ghost use Rattle.singcheck.specs.Replays.{ComesTo, HasEntry, IsRan, LacksEntry, LacksSchedule, Replays};
ghost use Rattle.singcheck.specs.declared.limits.TheConstants.{MOST_SLOTS, MOST_WORKERS};
ghost use Rattle.singcheck.specs.declared.limits.TheConstants.{MAX_SCHEDULE_READ};

use analyse::laws::each_method_has_a_verdict;
use contracts::laws::each_contract_is_judged;
use names::laws::clean_contracts_are_whole;
use replays::laws::{each_schedule_is_read, one_reading};
use semantics::laws::replays_agree;
use source::laws::{each_text_is_cut, one_cutting, one_fault};
use syntax::{one_tree_a_spelling, tokens_are_parsed};
use wellformed::laws::clean_methods_are_well_formed;

/// A text has at most one answer of `bounds`, with one status.
pub fn one_answer()
    ensures bytes { (text a b : List ℕ) (s t : Status)
        → Answers text a s → Answers text b t → a ≡ b }
    ensures status { (text a b : List ℕ) (s t : Status)
        → Answers text a s → Answers text b t → s ≡ t }
{
    one_cutting();
    one_fault();
    one_tree_a_spelling();
}

/// A text has at most one answer of `check`, with one status, whatever the numbers of workers and slots.
pub fn one_check()
    ensures bytes { (text a b : List ℕ) (s t : Status)
        → Checks text a s → Checks text b t → a ≡ b }
    ensures status { (text a b : List ℕ) (s t : Status)
        → Checks text a s → Checks text b t → s ≡ t }
{
    one_cutting();
    one_fault();
    one_tree_a_spelling();
}

/// A text, an entry and a schedule have at most one answer of `replay`, with one status. They have none if there is
/// no such entry or a line of the schedule is malformed.
pub fn one_replay()
    ensures bytes { (entry lines text a b : List ℕ) (s t : Status)
        → Replays entry lines text a s → Replays entry lines text b t → a ≡ b }
    ensures status { (entry lines text a b : List ℕ) (s t : Status)
        → Replays entry lines text a s → Replays entry lines text b t → s ≡ t }
    ensures entry { (entry lines text bytes : List ℕ) (status : Status)
        → LacksEntry text entry → Replays entry lines text bytes status → ⊥ }
    ensures line { (entry lines text bytes : List ℕ) (status : Status) (n : ℕ)
        → LacksSchedule text entry lines n → Replays entry lines text bytes status → ⊥ }
{
    one_cutting();
    one_fault();
    one_tree_a_spelling();
    each_program_has_bounds();
    one_reading();
    machine::laws::one_replay();
    replays_agree();
}

/// A text yields at most one program (`one`), the one that its items yield (`told`).
pub fn one_program()
    ensures one { (text : List ℕ) (p q : ProgramModel) → HasProgram text p → HasProgram text q → p ≡ q }
    ensures told { (text : List ℕ) (items : List ItemTree) (p : ProgramModel) → HasProgram text p → IsProgram text items
        → p ≡ program_told (record { text = text; items = items }) }
{
    one_cutting();
    one_fault();
    one_tree_a_spelling();
}

/// A text with findings in its text, its names or its contracts yields no program.
pub fn findings_or_program()
    ensures { (text : List ℕ) (found : List FindingModel) (p : ProgramModel) → AreFindings text found → HasProgram text p → ⊥ }
{
    one_cutting();
    one_fault();
    one_tree_a_spelling();
}

/// Whatever is found in its methods, the program of a text is well formed (`formed`), each of its contracts is sound
/// (`sound`), and none of its methods that takes nothing has a parameter of the exchange heap (`bare`).
pub fn each_program_is_well_formed()
    ensures formed { (text : List ℕ) (p : ProgramModel) → HasProgram text p
        → AreWellFormed p }
    ensures sound { (text : List ℕ) (p : ProgramModel) → HasProgram text p → AreSound p }
    ensures bare { (text : List ℕ) (p : ProgramModel) → HasProgram text p → Each IsBare p.methods }
{
    clean_contracts_are_whole();
    clean_methods_are_well_formed();
}

/// The contracts of the program of a text have bounds, as a double negation.
pub fn each_program_has_bounds()
    ensures { (text : List ℕ) (p : ProgramModel) → HasProgram text p → ((bound : QueueBounds) → AreBounds p bound → ⊥) → ⊥ }
{
    clean_contracts_are_whole();
    each_contract_is_judged();
}

/// Each text has an answer of `bounds` and one of `check`, as a double negation, so `Memory` is never the only result
/// allowed.
pub fn each_text_is_answered()
    ensures bounds { (text : List ℕ)
        → ((bytes : List ℕ) (status : Status) → Answers text bytes status → ⊥) → ⊥ }
    ensures check { (text : List ℕ)
        → ((bytes : List ℕ) (status : Status) → Checks text bytes status → ⊥) → ⊥ }
{
    each_text_is_cut();
    tokens_are_parsed();
    clean_contracts_are_whole();
    each_contract_is_judged();
    each_method_has_a_verdict();
}

/// Each text, entry and schedule has an answer of `replay`, or there is no such entry, or a line of the schedule is
/// malformed (`comes`). If the entry exists and the schedule has events, these have a replay, which is printed
/// (`ran`). Both are double negations.
pub fn each_replay_is_answered()
    ensures comes { (entry lines text : List ℕ) → (ComesTo entry lines text → ⊥) → ⊥ }
    ensures ran { (entry lines text : List ℕ) (p : ProgramModel) (n : ℕ) (events : List Event)
        → HasEntry text entry p n → IsSchedule lines events
        → ((bytes : List ℕ) (status : Status) → IsRan entry lines text bytes status → ⊥) → ⊥ }
{
    each_text_is_cut();
    tokens_are_parsed();
    clean_contracts_are_whole();
    each_contract_is_judged();
    each_method_has_a_verdict();
    each_program_has_bounds();
    each_schedule_is_read();
    machine::laws::events_have_a_replay();
    replays_agree();
}

/// The limits, in digits.
pub fn limits()
    ensures workers { MOST_WORKERS ≡ 64 }
    ensures slots { MOST_SLOTS ≡ 16777216 }
    ensures read { MAX_READ ≡ 4194305 }
    ensures schedule { MAX_SCHEDULE_READ ≡ 1048577 }
{}
