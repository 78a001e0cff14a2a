//! The lines of a path.

ghost use Rattle.std.specs.Prelude.{◌≡◌, ◌<◌, ◌++◌, ◌∷◌, All, IfOk, List, Some, length, map, option_map, slice_get};
ghost use Rattle.std.specs.List.{AllZip};
ghost use Rattle.flow.specs.Graphs.{graph_model, instruction_model};
ghost use Rattle.flow.specs.Lowering.{graph_of};
ghost use Rattle.rules.specs.Outcomes.{Pair as PairModel};
ghost use Rattle.analyse.specs.Noted.{pairs_of};
ghost use Rattle.analyse.specs.Reach.{Differ};
ghost use Rattle.analyse.specs.Workers.{HasSeen, IsWorkerOf, own_of};
ghost use Rattle.traces.specs.Lines as told;
ghost use Rattle.explanations.specs.Lines.{line_model};
ghost use Rattle.traces.specs.Steps.{AddsLines, method_of, program_of, step_after, step_before};

use crate::step::PathStep;
use crate::teller::Teller;
use analyse::Worker;
use explanations::Line;
use flow::Instr;
use intern::Rows;
use program::VarId;
use rules::Row;
use source::Memory;

impl Teller<'_> {
    /// Returns the instruction at a point, if there is one.
    pub(crate) fn instruction_at(&self, point: usize) -> Option<&Instr>
        requires graph { graph_model self.now.graph.now ≡ graph_of (method_of self.now) }
        ensures { option_map (λ i. instruction_model i.now) result
            ≡ slice_get (graph_of (method_of self.now)).instructions point }
    {
        match self.graph.instructions.get(point) {
            Some(instr) => Some(instr),
            None => None,
        }
    }

    /// Adds the choice that a step makes, and its changes of watched variables.
    fn add_step(
        &self,
        watched: &[VarId],
        step: &PathStep<'_>,
        lines: &mut Vec<Line>,
    ) -> Result<(), Memory>
        requires graph { graph_model self.now.graph.now ≡ graph_of (method_of self.now) }
        ensures { AddsLines lines.old.items lines.new.items result
            (told.step_lines (program_of self.now) (method_of self.now)
            (slice_get (graph_of (method_of self.now)).instructions step.now.point)
            (map (λ v. v.0) watched.now) (step_before step.now) (step_after step.now)) }
    {
        let Some(instr) = self.instruction_at(step.point) else {
            return Ok(());
        };
        let came = self.add_choice(instr, step, lines)?;
        self.add_changes(instr, came, watched, step, lines)
    }

    /// Returns the lines of a path: from the first pair that a worker has seen, along those at these indices.
    ///
    /// # Errors
    /// `Memory` if out of memory.
    pub(crate) fn path_lines(
        &self,
        watched: &[VarId],
        indices: &[usize],
        rows: &Rows,
        worker: &mut Worker,
    ) -> Result<Vec<Line>, Memory>
        requires graph { graph_model self.now.graph.now ≡ graph_of (method_of self.now) }
        requires worker { IsWorkerOf rows.now worker.old }
        requires differ { Differ (own_of worker.old) }
        requires seen { (pairs : List PairModel) × HasSeen worker.old pairs }
        requires some { 0 < length (pairs_of worker.old.seen) }
        requires there { All (λ index. index < length (pairs_of worker.old.seen)) indices.now }
        ensures worker { IsWorkerOf rows.now worker.new }
        ensures differ { Differ (own_of worker.new) }
        ensures seen { (pairs : List PairModel) → HasSeen worker.old pairs → HasSeen worker.new pairs }
        ensures lines { IfOk result (λ lines. (pairs steps : List PairModel) (first : PairModel)
            → HasSeen worker.old pairs → slice_get pairs 0 ≡ Some first
            → AllZip (λ index x. slice_get pairs index ≡ Some x) indices.now steps
            → map line_model lines.items
            ≡ told.start_lines (program_of self.now) (method_of self.now)
            (map (λ v. v.0) watched.now) first.1
            ++ told.path_lines (program_of self.now) (method_of self.now)
            (map (λ v. v.0) watched.now) (first ∷ steps)) }
    {
        let mut before = Row::empty(self.alloc);
        let mut after = Row::empty(self.alloc);
        let mut lines = Vec::new(self.alloc);
        let mut point = worker.read_pair(rows, 0, &mut before)?;
        self.add_start(watched, &before, &mut lines)?;
        for index in indices {
            let next = worker.read_pair(rows, *index, &mut after)?;
            let step = PathStep {
                point,
                before: &before,
                next,
                after: &after,
            };
            self.add_step(watched, &step, &mut lines)?;
            before.copy_from(&after)?;
            point = next;
        }
        Ok(lines)
    }
}
