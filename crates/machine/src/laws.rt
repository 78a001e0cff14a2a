//! Laws of replays, of blocks inside blocks, and of keys.

ghost use Rattle.std.specs.Prelude.{◌≡◌, Bool, List, ℕ};
ghost use Rattle.program.specs.Programs.{ProgramModel};
ghost use Rattle.machine.specs.Blocks.{goes_with};
ghost use Rattle.machine.specs.Heaps.{AreAllInside, FieldsHold};
ghost use Rattle.machine.specs.Keys.{world_key};
ghost use Rattle.machine.specs.Outcomes.{QueueBounds};
ghost use Rattle.machine.specs.Replays.{IsReplay, ReplayModel};
ghost use Rattle.machine.specs.World.{Block, World};
ghost use Rattle.machine.specs.declared.halts.Event.{Event};

/// Two replays of one program, method and list of events have the same steps, end and world.
pub fn one_replay()
    ensures { (p : ProgramModel) (bound : QueueBounds) (m : ℕ) (events : List Event) (r s : ReplayModel) →
        IsReplay p bound m events r → IsReplay p bound m events s → r ≡ s }
{}

/// For any program, bounds and method, a list of events has a replay, as a double negation.
pub fn events_have_a_replay()
    ensures { (p : ProgramModel) (bound : QueueBounds) (m : ℕ) (events : List Event) →
        ((r : ReplayModel) → ¬ IsReplay p bound m events r) → ⊥ }
{}

/// If fields hold what is inside their blocks, what goes with a block is that block and all that is inside it,
/// through any number of blocks, and no other set of blocks is that.
pub fn all_inside_goes()
    ensures all { (blocks : List Block) (a : ℕ) → FieldsHold blocks → AreAllInside blocks a (goes_with blocks a) }
    ensures alone { (blocks : List Block) (a : ℕ) (inside : ℕ → Bool) → FieldsHold blocks → AreAllInside blocks a inside →
        (j : ℕ) → inside j ≡ goes_with blocks a j }
{}

/// Worlds with the same key are the same.
pub fn key_determines_world()
    ensures { (w v : World) → world_key w ≡ world_key v → w ≡ v }
{}
