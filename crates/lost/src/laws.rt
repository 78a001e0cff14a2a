//! What is lost stays lost.

ghost use Rattle.std.specs.Prelude.{◌≡◌, ℕ, List};
ghost use Rattle.program.specs.Programs.{ProgramModel};
ghost use Rattle.machine.specs.Heaps.{FieldsHold};
ghost use Rattle.machine.specs.Machine.{event_outcome};
ghost use Rattle.machine.specs.Outcomes.{QueueBounds, Moved};
ghost use Rattle.machine.specs.Runs.{RunsTo};
ghost use Rattle.machine.specs.World.{World};
ghost use Rattle.machine.specs.declared.halts.Event.{Event};
ghost use Rattle.lost.specs.Lost.{IsLost, IsReached};

/// A block that is lost stays lost: no event frees it, and no events lead to a world in which a process reaches it.
///
/// That it is not freed is said of worlds in which fields hold exactly what is inside their blocks. `World::blocks` says
/// that each world in memory is one.
pub fn lost_stays_lost()
    ensures event { (p : ProgramModel) (bound : QueueBounds) (w v : World) (e : Event) → FieldsHold w.blocks
        → event_outcome p bound w e ≡ Moved v → (a : ℕ) → IsLost w a → IsLost v a }
    ensures run { (p : ProgramModel) (bound : QueueBounds) (w v : World) (events : List Event)
        → RunsTo p bound w events v → (a : ℕ) → IsLost w a → IsReached v a → ⊥ }
{}
