//! The changes of watched variables by instructions.

ghost use Rattle.std.specs.Prelude.{◌≡◌, ◌∷◌, [], IfOk, None, map};
ghost use Rattle.flow.specs.Graphs.{Call, New, instruction_model};
ghost use Rattle.flow.specs.declared.graph.Instr.TheVariants as instr;
ghost use Rattle.rows.specs.Rows.{leaf_at, row_model};
ghost use Rattle.rows.specs.declared.row.Leaf.TheVariants.{Nothing};
ghost use Rattle.traces.specs.Lines as told;
ghost use Rattle.explanations.specs.Lines.{line, line_model};
ghost use Rattle.traces.specs.Steps.{AddsLines, method_of, program_of, step_after, step_before};

use crate::step::PathStep;
use crate::teller::Teller;
use explanations::{Line, line_of};
use flow::{Instr, Sending};
use program::{Action, Mention, VarId};
use rules::{Leaf, Row};
use source::{Memory, Place};

/// Returns what a variable has in a row; nothing if there is no such variable.
pub(crate) fn leaf_of(leaves: &[Leaf], variable: VarId) -> Leaf
    ensures { result ≡ leaf_at leaves.now variable.0 }
{
    match leaves.get(variable.0) {
        Some(leaf) => *leaf,
        None => Leaf::Nothing,
    }
}

/// Returns the target and the source of a move, if the instruction is one.
fn move_in(instr: &Instr) -> Option<(Mention, Mention)>
    ensures { result ≡ told.move_in (instruction_model instr.now) }
{
    match instr {
        Instr::Act { action, .. } => match action {
            Action::Move { target, source } => Some((*target, *source)),
            Action::Use(_) | Action::Delete(_) => None,
            Action::Exchange(_) | Action::NewChannel(_) => None,
        },
        Instr::New { .. } | Instr::Send(_) | Instr::Switch { .. } | Instr::Branch { .. } => None,
        Instr::Forget { .. } | Instr::Call(_) | Instr::Start(_) => None,
        Instr::Return(_) | Instr::Stop { .. } => None,
    }
}

impl Teller<'_> {
    /// Makes the line for a variable that has this leaf, at a place.
    pub(crate) fn has(&self, place: Place, variable: VarId, leaf: Leaf) -> Result<Line, Memory>
        ensures { IfOk result (λ it. line_model it
            ≡ line place (told.has (program_of self.now) (method_of self.now) variable.0 leaf)) }
    {
        let name = self.name_of(variable);
        match leaf {
            Leaf::Nothing => line_of(self.alloc, place, name, b" has nothing", b""),
            Leaf::Block => line_of(self.alloc, place, name, b" has a block", b""),
            Leaf::CutOff => line_of(self.alloc, place, name, b" is cut off", b""),
            Leaf::State(state) => {
                line_of(
                    self.alloc,
                    place,
                    name,
                    b" in ",
                    self.state_name(variable, state),
                )
            }
        }
    }

    /// Makes the line for `who` taking `what`, at a place.
    fn takes(&self, place: Place, who: &[u8], what: &[u8]) -> Result<Line, Memory>
        ensures { IfOk result (λ it. line_model it ≡ line place (told.takes who.now what.now)) }
    {
        line_of(self.alloc, place, who, b" takes ", what)
    }

    /// Makes the line for a variable that has this leaf after a new block for the target.
    fn line_of_new(&self, target: Mention, variable: VarId, leaf: Leaf) -> Result<Line, Memory>
        ensures { IfOk result (λ it. line_model it ∷ []
            ≡ told.change (program_of self.now) (method_of self.now) target.place
            (New target [] 0) variable.0 leaf) }
    {
        let name = self.name_of(variable);
        match leaf {
            Leaf::Nothing => self.takes(target.place, self.name_of(target.variable), name),
            Leaf::Block | Leaf::CutOff | Leaf::State(_) => {
                line_of(self.alloc, target.place, name, b" new", b"")
            }
        }
    }

    /// Makes the line for a variable that has this leaf after a send.
    fn line_of_send(&self, sending: &Sending, variable: VarId, leaf: Leaf) -> Result<Line, Memory>
        ensures { IfOk result (λ it. line_model it ∷ []
            ≡ told.change (program_of self.now) (method_of self.now) sending.now.place
            (instruction_model (instr.Send sending.now)) variable.0 leaf) }
    {
        match leaf {
            Leaf::Nothing => self.goes(sending, variable),
            Leaf::Block | Leaf::CutOff | Leaf::State(_) => {
                self.has(sending.place, variable, leaf)
            }
        }
    }

    /// Makes the line for a variable that goes with a message.
    fn goes(&self, sending: &Sending, variable: VarId) -> Result<Line, Memory>
        ensures { IfOk result (λ it. line_model it ∷ []
            ≡ told.change (program_of self.now) (method_of self.now) sending.now.place
            (instruction_model (instr.Send sending.now)) variable.0 Nothing) }
    {
        let endpoint = sending.endpoint.variable;
        let mut text = Vec::new(self.alloc);
        text.extend_from_slice(self.name_of(variable))?;
        text.extend_from_slice(b" sent as ")?;
        text.extend_from_slice(self.message_name(endpoint, sending.message))?;
        text.extend_from_slice(b" on ")?;
        text.extend_from_slice(self.name_of(endpoint))?;
        Ok(Line {
            place: sending.place,
            text,
        })
    }

    /// Makes the line for a variable that has this leaf after a call.
    fn line_of_call(&self, place: Place, variable: VarId, leaf: Leaf) -> Result<Line, Memory>
        ensures { IfOk result (λ it. line_model it ∷ []
            ≡ told.change (program_of self.now) (method_of self.now) place
            (Call place (record { 0 = 0 }) [] None 0) variable.0 leaf) }
    {
        match leaf {
            Leaf::Nothing => self.takes(place, b"the call", self.name_of(variable)),
            Leaf::Block | Leaf::CutOff | Leaf::State(_) => self.has(place, variable, leaf),
        }
    }

    /// Adds the line for an instruction that changed the leaf of a variable to this one.
    fn add_change(
        &self,
        instr: &Instr,
        came: Place,
        variable: VarId,
        leaf: Leaf,
        lines: &mut Vec<Line>,
    ) -> Result<(), Memory>
        ensures { AddsLines lines.old.items lines.new.items result
            (told.change (program_of self.now) (method_of self.now) came
            (instruction_model instr.now) variable.0 leaf) }
    {
        let name = self.name_of(variable);
        let line = match instr {
            Instr::New { target, .. } => self.line_of_new(*target, variable, leaf)?,
            Instr::Act { action, .. } => match action {
                Action::Delete(at) => line_of(self.alloc, at.place, name, b" deleted", b"")?,
                Action::Exchange(exchange) => self.has(exchange.place, variable, leaf)?,
                Action::NewChannel(channel) => self.has(channel.place, variable, leaf)?,
                Action::Use(_) | Action::Move { .. } => return Ok(()),
            },
            Instr::Send(sending) => self.line_of_send(sending, variable, leaf)?,
            Instr::Switch { .. } => self.has(came, variable, leaf)?,
            Instr::Call(calling) => self.line_of_call(calling.place, variable, leaf)?,
            Instr::Start(starting) => self.takes(starting.place, b"the process", name)?,
            Instr::Branch { .. } | Instr::Forget { .. } => return Ok(()),
            Instr::Return(_) | Instr::Stop { .. } => return Ok(()),
        };
        lines.push(line)?;
        Ok(())
    }

    /// Adds the changes that a step makes to watched variables. `came` is the place where a switch continued.
    pub(crate) fn add_changes(
        &self,
        instr: &Instr,
        came: Place,
        watched: &[VarId],
        step: &PathStep<'_>,
        lines: &mut Vec<Line>,
    ) -> Result<(), Memory>
        ensures { AddsLines lines.old.items lines.new.items result
            (told.changes (program_of self.now) (method_of self.now) came
            (instruction_model instr.now) (map (λ v. v.0) watched.now) (step_before step.now).1
            (step_after step.now).1) }
    {
        if let Some((target, source)) = move_in(instr) {
            if !step.keeps_all(watched) {
                let target_name = self.name_of(target.variable);
                let source_name = self.name_of(source.variable);
                lines.push(self.takes(target.place, target_name, source_name)?)?;
            }
            return Ok(());
        }
        for variable in watched {
            if !step.keeps(*variable) {
                let leaf = leaf_of(step.after.leaves(), *variable);
                self.add_change(instr, came, *variable, leaf, lines)?;
            }
        }
        Ok(())
    }

    /// Adds a line for each watched variable that has something when the method begins.
    pub(crate) fn add_start(
        &self,
        watched: &[VarId],
        first: &Row,
        lines: &mut Vec<Line>,
    ) -> Result<(), Memory>
        ensures { AddsLines lines.old.items lines.new.items result
            (told.start_lines (program_of self.now) (method_of self.now)
            (map (λ v. v.0) watched.now) (row_model first.now)) }
    {
        for variable in watched {
            let leaf = leaf_of(first.leaves(), *variable);
            if leaf != Leaf::Nothing {
                lines.push(self.has(self.method.name, *variable, leaf)?)?;
            }
        }
        Ok(())
    }
}
