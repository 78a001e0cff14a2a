//! Transfers: what an instruction by itself does to a row.

ghost use Rattle.std.specs.Prelude.{◌≡◌, ◌<◌, ◌∷◌, [], IfSome, IsSomeAnd, List, Some, length, slice_get, true};
ghost use Rattle.flow.specs.Graphs.{instruction_model};
ghost use Rattle.flow.specs.Lowering.{graph_of};
ghost use Rattle.program.specs.Methods.{method_model};
ghost use Rattle.rules.specs.Outcomes.{Goes};
ghost use Rattle.rules.specs.Programs.{model_of};
ghost use Rattle.rows.specs.Rows.{row_model};
ghost use Rattle.rules.specs.Steps.{step_at};
ghost use Rattle.rules.specs.Transfers as table;
ghost use Rattle.rules.specs.Transfers.{allows, row_after_transfer};
ghost use Rattle.rows.specs.declared.row.Leaf.{Leaf as LeafModel};

use crate::checks::lends;
use crate::lowered::Program;
use flow::Instr;
use program::{Action, Method, MethodId, VarId};
use rows::{Leaf, Row};

/// What an instruction does to a row, if that depends only on the leaves of one or two variables. The same transfer does the same at any
/// point of any method, so its result is worth remembering.
#[derive(Clone, Copy, PartialEq, Eq)]
pub enum Transfer {
    /// Reads or writes the block that a variable has.
    Use(VarId),
    /// Gives a variable a new block.
    New(VarId),
    /// Gives the target what the source has.
    Move { target: VarId, source: VarId },
    /// Frees the block that a variable has.
    Delete(VarId),
}

impl Transfer {
    /// Returns whether a row passes the checks of the transfer.
    pub fn allows(self, row: &Row) -> bool
        ensures { result ≡ allows self (row_model row.now) }
    {
        match self {
            Transfer::Use(variable) | Transfer::Delete(variable) => row.owns(variable),
            Transfer::New(variable) => !row.owns(variable),
            Transfer::Move { target, source } => row.owns(source) && !row.owns(target),
        }
    }

    /// Changes a row as the transfer does.
    pub fn apply(self, row: &mut Row)
        ensures { row_model row.new ≡ row_after_transfer self (row_model row.old) }
    {
        match self {
            Transfer::Use(_) => {}
            Transfer::New(variable) => row.set(variable, Leaf::Block),
            Transfer::Move { target, source } => {
                let taken = row.leaf(source);
                row.set(target, taken);
                row.set(source, Leaf::Nothing);
            }
            Transfer::Delete(variable) => row.set(variable, Leaf::Nothing),
        }
    }

    /// Returns whether those of its checks pass that do not depend on a row.
    fn fits(self, method: &Method) -> bool
        ensures { result ≡ table.fits (method_model method.now) self }
    {
        match self {
            Transfer::Use(_) => true,
            Transfer::New(variable) | Transfer::Delete(variable) => !lends(method, variable),
            Transfer::Move { target, source } => {
                target.0 != source.0 && !lends(method, source) && !lends(method, target)
            }
        }
    }
}

/// Returns the transfer of an action, if it has one.
fn transfer_of(action: Action) -> Option<Transfer>
    ensures { result ≡ table.transfer_of action }
{
    match action {
        Action::Use(at) => Some(Transfer::Use(at.variable)),
        Action::Move { target, source } => Some(Transfer::Move {
            target: target.variable,
            source: source.variable,
        }),
        Action::Delete(at) => Some(Transfer::Delete(at.variable)),
        Action::Exchange(_) | Action::NewChannel(_) => None,
    }
}

/// Returns the transfer of an instruction and the point after it, if it has one.
fn transfer_in(instruction: &Instr) -> Option<(Transfer, usize)>
    ensures { result ≡ table.transfer_in (instruction_model instruction.now) }
{
    match instruction {
        Instr::Act { action, next } => Some((transfer_of(*action)?, *next)),
        // What is given for fields is checked by its state, so a New with arguments is no transfer.
        Instr::New {
            target,
            arguments,
            next,
        } => {
            if !arguments.is_empty() {
                return None;
            }
            Some((Transfer::New(target.variable), *next))
        }
        Instr::Send(_) | Instr::Switch { .. } | Instr::Branch { .. } | Instr::Forget { .. } => None,
        Instr::Call(_) | Instr::Start(_) | Instr::Return(_) | Instr::Stop { .. } => None,
    }
}

/// Returns that transfer, if it fits.
fn transfer_for(method: &Method, instruction: &Instr) -> Option<(Transfer, usize)>
    ensures { result ≡ table.transfer_at (method_model method.now) (Some (instruction_model instruction.now)) }
{
    let (transfer, next) = transfer_in(instruction)?;
    if transfer.fits(method) {
        return Some((transfer, next));
    }
    None
}

/// Returns the transfer at a point of a method and the point after it, if the instruction there has one and those of its checks pass that
/// do not depend on a row. From any row that the transfer allows, the step then leads to that point alone, with the row after the transfer.
pub fn transfer_at(program: &Program, method: MethodId, point: usize) -> Option<(Transfer, usize)>
    requires there { method.0 < length (model_of program.now).methods }
    ensures goes { IfSome result (λ t. (row : List LeafModel) → allows t.0 row ≡ true
        → step_at (model_of program.now) method.0 (point, row) ≡ Goes ((t.1, row_after_transfer t.0 row) ∷ [])) }
    ensures which { IsSomeAnd (slice_get (model_of program.now).methods method.0)
        (λ m. result ≡ table.transfer_at m (slice_get (graph_of m).instructions point)) }
{
    let owner = program.method(method);
    match program.graph(method).instructions.get(point) {
        Some(instruction) => transfer_for(owner, instruction),
        None => None,
    }
}
