//! The choices that steps make.

ghost use Rattle.std.specs.Prelude.{◌≡◌, ◌++◌, ◌∷◌, [], IfOk, List, OnOk};
ghost use Rattle.flow.specs.Cases.{EntranceModel, entrance_model};
ghost use Rattle.flow.specs.Graphs.{cases_model, instruction_model};
ghost use Rattle.traces.specs.Lines as told;
ghost use Rattle.explanations.specs.Lines.{LineModel};
ghost use Rattle.traces.specs.Steps.{AddsLines, HasCases, method_of, program_of, step_after, step_before};

use crate::changes::leaf_of;
use crate::step::PathStep;
use crate::teller::Teller;
use explanations::{Line, line_of};
use flow::{Branches, Cases, Entrance, Instr};
use program::{Awaited, Mention, VarId};
use source::{Memory, Place};

impl Teller<'_> {
    /// Adds the choice that a step makes, if it makes one. Returns the place where a switch continued.
    pub(crate) fn add_choice(
        &self,
        instr: &Instr,
        step: &PathStep<'_>,
        lines: &mut Vec<Line>,
    ) -> Result<Place, Memory>
        ensures lines { AddsLines lines.old.items lines.new.items result
            (told.choice (program_of self.now) (method_of self.now) (instruction_model instr.now)
            (step_before step.now) (step_after step.now)) }
        ensures came { IfOk result (λ came. came
            ≡ told.came_at (program_of self.now) (method_of self.now) (instruction_model instr.now)
            (step_before step.now) (step_after step.now)) }
    {
        match instr {
            Instr::Branch { place, branches } => {
                self.add_branch(*place, *branches, step.next, lines)?;
            }
            Instr::Switch { place, cases } => return self.add_cases(*place, cases, step, lines),
            Instr::Act { .. } | Instr::New { .. } | Instr::Forget { .. } | Instr::Send(_) => {}
            Instr::Call(_) | Instr::Start(_) | Instr::Return(_) | Instr::Stop { .. } => {}
        }
        Ok(self.method.close)
    }

    /// Adds whether a condition was true or false, unless it continues at the same point either way.
    fn add_branch(
        &self,
        place: Place,
        branches: Branches,
        next: usize,
        lines: &mut Vec<Line>,
    ) -> Result<(), Memory>
        ensures { AddsLines lines.old.items lines.new.items result
            (told.branch_lines place branches next) }
    {
        let Branches::Either { inside, past } = branches else {
            return Ok(());
        };
        if inside == past {
            return Ok(());
        }
        let way: &[u8] = if next == inside { b"true" } else { b"false" };
        lines.push(line_of(self.alloc, place, b"condition ", way, b"")?)?;
        Ok(())
    }

    /// Adds the case by which a step of a switch continued, or all cases that lead there. Returns the place of the first, or that of the
    /// switch if there is none.
    fn add_cases(
        &self,
        place: Place,
        cases: &Cases,
        step: &PathStep<'_>,
        lines: &mut Vec<Line>,
    ) -> Result<Place, Memory>
        ensures lines { AddsLines lines.old.items lines.new.items result
            (told.case_lines (program_of self.now) (method_of self.now)
            (told.cases_taken (program_of self.now) (method_of self.now) (cases_model cases.now)
            (step_before step.now) (step_after step.now))) }
        ensures place { IfOk result (λ at. at
            ≡ told.case_place (program_of self.now) (method_of self.now) place
            (told.cases_taken (program_of self.now) (method_of self.now) (cases_model cases.now)
            (step_before step.now) (step_after step.now))) }
    {
        let mut first = None;
        for case in cases.list() {
            if !self.came_by(cases.endpoints(), step, case) {
                continue;
            }
            self.add_taken(case, &mut first, lines)?;
        }
        Ok(first.unwrap_or(place))
    }

    /// Adds a case that was taken, after others if there are any. `first` is the place of the first one.
    fn add_taken(
        &self,
        case: &Entrance,
        first: &mut Option<Place>,
        lines: &mut Vec<Line>,
    ) -> Result<(), Memory>
        ensures { OnOk result ((before : List LineModel) (taken : List EntranceModel)
            → HasCases (program_of self.now)
            (method_of self.now) before taken first.old lines.old.items
            → HasCases (program_of self.now) (method_of self.now) before
            (taken ++ entrance_model case.now ∷ []) first.new lines.new.items) }
    {
        match first {
            None => {
                self.add_case(b"case ", case, lines)?;
                *first = Some(case.endpoint.place);
                Ok(())
            }
            Some(_) => self.add_case(b"or case ", case, lines),
        }
    }

    /// Adds a case.
    fn add_case(&self, front: &[u8], case: &Entrance, lines: &mut Vec<Line>) -> Result<(), Memory>
        ensures { AddsLines lines.old.items lines.new.items result
            (told.case_line (program_of self.now) (method_of self.now) front.now
            (entrance_model case.now) ∷ []) }
    {
        let endpoint = case.endpoint;
        let mut text = Vec::new(self.alloc);
        text.extend_from_slice(front)?;
        text.extend_from_slice(self.name_of(endpoint.variable))?;
        text.extend_from_slice(b".")?;
        text.extend_from_slice(self.awaited_name(endpoint.variable, case.awaited))?;
        lines.push(Line {
            place: endpoint.place,
            text,
        })?;
        Ok(())
    }

    /// Returns how what is awaited at an endpoint is written.
    fn awaited_name(&self, endpoint: VarId, awaited: Awaited) -> &[u8]
        ensures { result.now ≡ told.awaited_name (program_of self.now)
            (method_of self.now) endpoint.0 awaited }
    {
        match awaited {
            Awaited::Message(message) => self.message_name(endpoint, message),
            Awaited::Closed => b"ChannelClosed",
        }
    }

    /// Returns whether a step continued by a case: it leads there, the case's endpoint has what its message or close leaves, and the
    /// other endpoints have what they had.
    fn came_by(&self, endpoints: &[Mention], step: &PathStep<'_>, case: &Entrance) -> bool
        ensures { result ≡ told.came_by (program_of self.now) (method_of self.now) endpoints.now
            (step_before step.now) (step_after step.now) (entrance_model case.now) }
    {
        if case.next != step.next {
            return false;
        }
        let own = case.endpoint.variable;
        let left = self.awaited_leaf(own, case.awaited, leaf_of(step.before.leaves(), own));
        if left != leaf_of(step.after.leaves(), own) {
            return false;
        }
        step.keeps_others(endpoints, own)
    }
}
