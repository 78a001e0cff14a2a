//! The laws. They hold for every program, whatever the code does.

ghost use Rattle.std.specs.Prelude.{◌≡◌, ℕ, List, Option, length, map, slice_get};
ghost use Rattle.flow.specs.Lowering.{graph_of};
ghost use Rattle.machine.specs.Machine as graph;
ghost use Rattle.machine.specs.Outcomes.{QueueBounds};
ghost use Rattle.machine.specs.Places as graph_places;
ghost use Rattle.machine.specs.Replays as graph_replays;
ghost use Rattle.machine.specs.Runs as graph_runs;
ghost use Rattle.machine.specs.World as graph_world;
ghost use Rattle.machine.specs.declared.halts.Event.{Event};
ghost use Rattle.machine.specs.declared.halts.Halt.{Halt};
ghost use Rattle.program.specs.Methods.{MethodModel};
ghost use Rattle.program.specs.Programs.{ProgramModel};
ghost use Rattle.semantics.specs.Events.{Run, RunsTo, event_outcome, start_of};
ghost use Rattle.semantics.specs.Laid.{IsAt};
ghost use Rattle.semantics.specs.Rests.{rest_of};
ghost use Rattle.semantics.specs.Places.{position, process_place};
ghost use Rattle.semantics.specs.Replays.{IsReplay};
ghost use Rattle.semantics.specs.Same.{IsOutcome, IsWorld};
ghost use Rattle.semantics.specs.Worlds.{World};

/// At the first point of the graph of a method, all of its statements are still to do.
pub fn graphs_do_their_statements()
    ensures { (m : MethodModel) → IsAt (slice_get (graph_of m).instructions) (graph_of m).first (rest_of m) }
{}

/// Both machines begin in the same world, and in the same worlds each event has the same outcome.
pub fn events_agree()
    ensures begins { (p : ProgramModel) (n : ℕ) → IsWorld p (graph_runs.start_of p n) (start_of p n) }
    ensures steps { (p : ProgramModel) (bound : QueueBounds) (w : graph_world.World) (s : World) → IsWorld p w s → (e : Event)
        → IsOutcome p (graph.event_outcome p bound w e) (event_outcome p bound s e) }
    ensures statements { (p : ProgramModel) (bound : QueueBounds) (n : ℕ) (s : World) → Run p bound n s
        → (w : graph_world.World) × (graph_runs.Run p bound n w × IsWorld p w s) }
    ensures graphs { (p : ProgramModel) (bound : QueueBounds) (n : ℕ) (es : List Event) (w : graph_world.World)
        → graph_runs.RunsTo p bound (graph_runs.start_of p n) es w
        → (s : World) × (RunsTo p bound (start_of p n) es s × IsWorld p w s) }
{}

/// In the same worlds each process is at the same place and has as many frames. A replay over graphs is one over statements, and the other
/// way round, with the same steps and the same end.
pub fn replays_agree()
    ensures places { (p : ProgramModel) (w : graph_world.World) (s : World) → IsWorld p w s → (q : ℕ)
        → graph_places.process_place p w q ≡ process_place s q }
    ensures positions { (p : ProgramModel) (w : graph_world.World) (s : World) → IsWorld p w s
        → map (λ stack. (length stack, graph_places.stack_place p stack)) w.processes ≡ map position s.processes }
    ensures graphs { (p : ProgramModel) (bound : QueueBounds) (m : ℕ) (events : List Event) (r : graph_replays.ReplayModel)
        → graph_replays.IsReplay p bound m events r
        → (s : World) × (IsReplay p bound m events r.steps r.halt s × IsWorld p r.world s) }
    ensures statements { (p : ProgramModel) (bound : QueueBounds) (m : ℕ) (events : List Event) (steps : ℕ) (why : Option Halt) (s : World)
        → IsReplay p bound m events steps why s
        → (w : graph_world.World)
        × (graph_replays.IsReplay p bound m events (record { world = w; steps = steps; halt = why }) × IsWorld p w s) }
{}
