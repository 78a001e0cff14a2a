//! Laws of schedules, and of runs with their lines.

ghost use Rattle.std.specs.Prelude.{◌≡◌, ◌+◌, ℕ, List, take};
ghost use Rattle.machine.specs.Outcomes.{QueueBounds};
ghost use Rattle.machine.specs.Runs.{RunsTo};
ghost use Rattle.machine.specs.World.{World};
ghost use Rattle.machine.specs.declared.halts.Event.{Event};
ghost use Rattle.replays.specs.EventLines.{TraceWords};
ghost use Rattle.replays.specs.Journals.{HasLines};
ghost use Rattle.replays.specs.Schedules.{IsFirstMalformed, IsSchedule};
ghost use Rattle.replays.specs.declared.limits.TheConstants.{MOST_NUMBER, MOST_SCHEDULE};

/// Bytes are a schedule of at most one list of events and have at most one first malformed line, never both.
pub fn one_reading()
    ensures events { (bytes : List ℕ) (a b : List Event) → IsSchedule bytes a → IsSchedule bytes b → a ≡ b }
    ensures line { (bytes : List ℕ) (m n : ℕ) → IsFirstMalformed bytes m → IsFirstMalformed bytes n → m ≡ n }
    ensures apart { (bytes : List ℕ) (events : List Event) (n : ℕ) → IsSchedule bytes events → ¬ IsFirstMalformed bytes n }
{}

/// Any bytes are a schedule or have a first malformed line, as a double negation.
pub fn each_schedule_is_read()
    ensures { (bytes : List ℕ) → ((events : List Event) → ¬ IsSchedule bytes events) → ((n : ℕ) → ¬ IsFirstMalformed bytes n) → ⊥ }
{}

/// Reading one byte past the greatest size is enough: what holds of the bytes up to there holds of all bytes.
pub fn a_front_tells_all()
    ensures events { (bytes : List ℕ) (events : List Event) → IsSchedule (take (MOST_SCHEDULE + 1) bytes) events → IsSchedule bytes events }
    ensures line { (bytes : List ℕ) (n : ℕ) → IsFirstMalformed (take (MOST_SCHEDULE + 1) bytes) n → IsFirstMalformed bytes n }
{}

/// The limits, in digits.
pub fn limits()
    ensures bytes { MOST_SCHEDULE ≡ 1048576 }
    ensures number { MOST_NUMBER ≡ 4294967295 }
{}

/// Events with their lines are a run.
pub fn lines_are_of_runs()
    ensures { (t : TraceWords) (bound : QueueBounds) (w v : World) (events : List Event) (lines : List ℕ) (conditions : ℕ)
        → HasLines t bound w events v lines conditions → RunsTo t.words.program bound w events v }
{}
