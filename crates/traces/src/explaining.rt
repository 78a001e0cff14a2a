//! Findings of a method, each with the lines of a shortest path to it.

ghost use Rattle.std.specs.Prelude.{◌≡◌, ◌<◌, ◌∷◌, [], true, false, All, Contains, IfOk, IsSomeAnd, List, length, map, slice_get};
ghost use Rattle.source.specs.Findings.{finding_model};
ghost use Rattle.flow.specs.Graphs.{graph_model};
ghost use Rattle.flow.specs.Lowering.{graph_of};
ghost use Rattle.program.specs.Methods.{method_model};
ghost use Rattle.rules.specs.Breaches.{breach_in};
ghost use Rattle.rules.specs.Outcomes.{Pair as PairModel};
ghost use Rattle.rules.specs.Programs.{model_of};
ghost use Rattle.analyse.specs.Reach.{Differ};
ghost use Rattle.analyse.specs.Trails.{AreTrails, failures_of, says_all};
ghost use Rattle.analyse.specs.Verdicts.{HasTooMany, IsMethodVerdict, place_of_method};
ghost use Rattle.analyse.specs.Workers.{HasSeen, IsWorkerOf, own_of};
ghost use Rattle.explanations.specs.Explained.{explained_as, explained_model, is_asked};
ghost use Rattle.traces.specs.Explained.{HasTrace, IsExplainedIf, many_lines};
ghost use Rattle.explanations.specs.Lines.{line_model};

use crate::teller::Teller;
use crate::watching::watched_variables;
use analyse::{Failure, MOST_PAIRS, Trails, Worker, trails_of};
use explanations::{Explained, Line, is_asked, line_of};
use intern::Rows;
use itoa::Buffer;
use program::MethodId;
use rules::{Program, Row};
use source::{Memory, Place, texts};
use std::alloc::Global;

/// Returns the findings of a method, each once, with the lines of a shortest path from the method's entry to a step that fails with it.
/// The finding that too many pairs are reached has no path. If a place is named, only findings there have lines.
///
/// # Errors
/// `Memory` if out of memory.
pub fn explain(
    alloc: Global,
    program: &Program,
    method: MethodId,
    named: Option<Place>,
    rows: &Rows,
    worker: &mut Worker,
) -> Result<Vec<Explained>, Memory>
    requires there { method.0 < length (model_of program.now).methods }
    requires worker { IsWorkerOf rows.now worker.old }
    ensures worker { IsWorkerOf rows.now worker.new }
    ensures verdict { IfOk result (λ found.
        IsMethodVerdict (model_of program.now) method.0 (map (λ e. finding_model e.finding) found.items)) }
    ensures explained { IfOk result (λ found.
        All (λ e. IsExplainedIf named (model_of program.now) method.0 (explained_model e)) found.items) }
{
    let found = trails_of(alloc, program, method, rows, worker)?;
    let site = ExplainingSite {
        alloc,
        program,
        method,
        named,
        rows,
    };
    match found {
        Some(trails) => site.explain_failures(&trails, worker),
        None => site.explain_too_many(),
    }
}

/// What is explained: the failures of a method, whose rows are in a table, or only those at a place.
#[derive(Clone, Copy)]
struct ExplainingSite<'a> {
    alloc: Global,
    program: &'a Program,
    method: MethodId,
    named: Option<Place>,
    rows: &'a Rows,
}

impl ExplainingSite<'_> {
    /// Returns the place of the method's name.
    fn place(&self) -> Place
        requires there { self.now.method.0 < length (model_of self.now.program.now).methods }
        ensures { result ≡ place_of_method (model_of self.now.program.now) self.now.method.0 }
    {
        self.program.methods()[self.method.0 as usize].name
    }

    /// Returns the finding that too many pairs are reached.
    fn explain_too_many(&self) -> Result<Vec<Explained>, Memory>
        requires there { self.now.method.0 < length (model_of self.now.program.now).methods }
        requires many { HasTooMany (model_of self.now.program.now) self.now.method.0 }
        ensures verdict { IfOk result (λ found. IsMethodVerdict (model_of self.now.program.now) self.now.method.0
            (map (λ e. finding_model e.finding) found.items)) }
        ensures explained { IfOk result (λ found.
            All (λ e. IsExplainedIf self.now.named (model_of self.now.program.now) self.now.method.0 (explained_model e)) found.items) }
    {
        let place = self.place();
        let lines = self.count_lines(place)?;
        let finding = texts::too_many_pairs(self.alloc, place)?;
        let mut found = Vec::new(self.alloc);
        found.push(Explained { finding, lines })?;
        Ok(found)
    }

    /// Returns the line with the number of pairs that may be reached, if it is asked for.
    fn count_lines(&self, place: Place) -> Result<Vec<Line>, Memory>
        requires { place ≡ place_of_method (model_of self.now.program.now) self.now.method.0 }
        ensures asked { IfOk result (λ lines. is_asked self.now.named place ≡ true
            → map line_model lines.items ≡ many_lines (model_of self.now.program.now) self.now.method.0) }
        ensures other { IfOk result (λ lines. is_asked self.now.named place ≡ false → lines.items ≡ []) }
    {
        let mut lines = Vec::new(self.alloc);
        if is_asked(self.named, place) {
            lines.push(self.count_line(place)?)?;
        }
        Ok(lines)
    }

    /// Returns the line with the number of pairs that may be reached.
    fn count_line(&self, place: Place) -> Result<Line, Memory>
        requires { place ≡ place_of_method (model_of self.now.program.now) self.now.method.0 }
        ensures { IfOk result (λ line. line_model line ∷ [] ≡ many_lines (model_of self.now.program.now) self.now.method.0) }
    {
        let mut digits = Buffer::new();
        let most = digits.format(MOST_PAIRS);
        let line = line_of(
            self.alloc,
            place,
            b"more than ",
            most.as_bytes(),
            b" pairs are reached",
        )?;
        Ok(line)
    }

    /// Explains why steps of the method fail.
    fn explain_failures(
        &self,
        trails: &Trails,
        worker: &mut Worker,
    ) -> Result<Vec<Explained>, Memory>
        requires there { self.now.method.0 < length (model_of self.now.program.now).methods }
        requires worker { IsWorkerOf self.now.rows.now worker.old }
        requires differ { Differ (own_of worker.old) }
        requires trails { (pairs : List PairModel) × HasSeen worker.old pairs
            × AreTrails (model_of self.now.program.now) self.now.method.0 pairs trails.now }
        ensures worker { IsWorkerOf self.now.rows.now worker.new }
        ensures found { IfOk result (λ found. map (λ e. finding_model e.finding) found.items
            ≡ says_all (breach_in (model_of self.now.program.now) self.now.method.0) trails.now) }
        ensures explained { IfOk result (λ found.
            All (λ e. IsExplainedIf self.now.named (model_of self.now.program.now) self.now.method.0 (explained_model e)) found.items) }
    {
        let mut found = Vec::new(self.alloc);
        for failure in trails.failures() {
            found.push(self.explain_failure(trails, *failure, worker)?)?;
        }
        Ok(found)
    }

    /// Returns the finding of a failure, with its lines if they are asked for.
    fn explain_failure(
        &self,
        trails: &Trails,
        failure: Failure,
        worker: &mut Worker,
    ) -> Result<Explained, Memory>
        requires there { self.now.method.0 < length (model_of self.now.program.now).methods }
        requires worker { IsWorkerOf self.now.rows.now worker.old }
        requires differ { Differ (own_of worker.old) }
        requires trails { (pairs : List PairModel) × HasSeen worker.old pairs
            × AreTrails (model_of self.now.program.now) self.now.method.0 pairs trails.now }
        requires known { Contains (failures_of trails.now) failure }
        ensures worker { IsWorkerOf self.now.rows.now worker.new }
        ensures differ { Differ (own_of worker.new) }
        ensures seen { (pairs : List PairModel) → HasSeen worker.old pairs → HasSeen worker.new pairs }
        ensures finding { IfOk result (λ e. finding_model e.finding
            ≡ breach_in (model_of self.now.program.now) self.now.method.0 failure.breach) }
        ensures explained { IfOk result (λ e.
            IsExplainedIf self.now.named (model_of self.now.program.now) self.now.method.0 (explained_model e)) }
    {
        let finding = self
            .program
            .finding(self.alloc, self.method, failure.breach)?;
        let lines = if is_asked(self.named, finding.place) {
            self.trace_lines(trails, failure, worker)?
        } else {
            Vec::new(self.alloc)
        };
        Ok(Explained { finding, lines })
    }

    /// Returns the lines of a shortest path to a failure.
    fn trace_lines(
        &self,
        trails: &Trails,
        failure: Failure,
        worker: &mut Worker,
    ) -> Result<Vec<Line>, Memory>
        requires there { self.now.method.0 < length (model_of self.now.program.now).methods }
        requires worker { IsWorkerOf self.now.rows.now worker.old }
        requires differ { Differ (own_of worker.old) }
        requires trails { (pairs : List PairModel) × HasSeen worker.old pairs
            × AreTrails (model_of self.now.program.now) self.now.method.0 pairs trails.now }
        requires known { Contains (failures_of trails.now) failure }
        ensures worker { IsWorkerOf self.now.rows.now worker.new }
        ensures differ { Differ (own_of worker.new) }
        ensures seen { (pairs : List PairModel) → HasSeen worker.old pairs → HasSeen worker.new pairs }
        ensures trace { IfOk result (λ lines. HasTrace (model_of self.now.program.now) self.now.method.0
            (explained_as (breach_in (model_of self.now.program.now) self.now.method.0 failure.breach) lines.items)) }
    {
        let teller = Teller {
            alloc: self.alloc,
            program: self.program,
            method: &self.program.methods()[self.method.0 as usize],
            graph: self.program.graph(self.method),
        };
        let places = trails.indices_to(self.alloc, failure)?;
        let mut row = Row::empty(self.alloc);
        let point = worker.read_pair(self.rows, failure.at, &mut row)?;
        let at = teller.instruction_at(point);
        let about = watched_variables(self.alloc, failure.breach.reason, at)?;
        teller.path_lines(&about, &places, self.rows, worker)
    }
}
