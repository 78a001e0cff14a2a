//! Steps: from a point and a row to the outcome.

ghost use Rattle.std.specs.Prelude.{◌≡◌, ◌<◌, ◌≤◌, ◌∷◌, [], All, IfOk, IfSome, IsSomeAnd, List, length, map, slice_get};
ghost use Rattle.flow.specs.Graphs.{instruction_model};
ghost use Rattle.flow.specs.Lowering.{graph_of};
ghost use Rattle.program.specs.declared.limits.TheConstants.{MOST_VARIABLES};
ghost use Rattle.rules.specs.Endpoints.{declared_leaf};
ghost use Rattle.rows.specs.Leaves.{IsNumbered};
ghost use Rattle.rules.specs.Onwards.{KeepsRow, condition_at, onward_model};
ghost use Rattle.rules.specs.Outcomes.{Goes};
ghost use Rattle.rules.specs.Programs.{model_of};
ghost use Rattle.rows.specs.Rows.{row_model};
ghost use Rattle.rules.specs.RuleTable.{ways};
ghost use Rattle.rules.specs.Steps.{entry_leaf, entry_of, outcome_model, pair_model, step_at};
ghost use Rattle.rows.specs.declared.row.Leaf.{Leaf as LeafModel};

use crate::endpoints::declared_leaf;
use crate::here::Site;
use crate::lowered::Program;
use crate::onward::Onward;
use crate::outcome::Outcome;
use crate::table::apply;
use flow::{Branches, Instr};
use program::{HeapType, MethodId, Role, Variable};
use rows::{Leaf, Row, Spare};
use source::Memory;
use std::alloc::Global;

/// Returns what a variable has when its method begins.
fn first_leaf(role: Role, ty: HeapType) -> Leaf
    ensures { result ≡ entry_leaf role ty }
{
    match role {
        Role::Local => Leaf::Nothing,
        Role::Lent | Role::Claimed => declared_leaf(ty),
    }
}

/// Returns what each of these variables has when the method begins.
fn first_leaves(alloc: Global, variables: &[Variable]) -> Result<Vec<Leaf>, Memory>
    ensures { IfOk result (λ leaves. leaves.items ≡ map (λ v. entry_leaf v.role v.ty) variables.now) }
{
    let leaves = variables
        .iter()
        .map(|v| first_leaf(v.role, v.ty))
        .collect(alloc)?;
    Ok(leaves)
}

/// Returns the row with which a method of these variables begins.
fn first_row(alloc: Global, variables: &[Variable]) -> Result<Row, Memory>
    requires few { length variables.now ≤ MOST_VARIABLES }
    requires numbered { All (λ v. IsNumbered (declared_leaf v.ty)) variables.now }
    ensures { IfOk result (λ row. row_model row ≡ map (λ v. entry_leaf v.role v.ty) variables.now) }
{
    let leaves = first_leaves(alloc, variables)?;
    Ok(Row::from_leaves(leaves))
}

/// Returns the pair with which a method begins: its first point, and the row in which each parameter has what it is declared to have, a
/// block or an endpoint in its state, and every other variable has nothing.
///
/// # Errors
/// `Memory` if out of memory.
pub fn entry_pair(
    alloc: Global,
    program: &Program,
    method: MethodId,
) -> Result<(usize, Row), Memory>
    requires there { method.0 < length (model_of program.now).methods }
    ensures { IfOk result (λ pair. pair_model pair ≡ entry_of (model_of program.now) method.0) }
{
    let row = first_row(alloc, &program.method(method).variables)?;
    Ok((program.graph(method).first, row))
}

/// Takes a step: applies the rule table to a row and the instruction at a point of a method. Returns the points at which the method
/// continues, each with its row, or the first check that fails, as a breach.
///
/// # Errors
/// `Memory` if out of memory.
pub fn step(
    alloc: Global,
    program: &Program,
    method: MethodId,
    point: usize,
    row: &Row,
) -> Result<Outcome, Memory>
    requires there { method.0 < length (model_of program.now).methods }
    ensures { IfOk result (λ o. outcome_model o ≡ step_at (model_of program.now) method.0 (point, row_model row.now)) }
{
    let mut after = row.copy(alloc)?;
    let mut spare = Spare::new(alloc);
    let onward = step_in_place(program, method, point, &mut after, &mut spare)?;
    apart(alloc, onward, after)
}

/// Takes the same step as `step`, but on the row in place. The row is then the row after the step for `Changed`, and unchanged for
/// `Ends`, `Same`, `Both` and `Ways`. Allocates nothing except rows of a switch for which there are no spare ones.
///
/// # Errors
/// `Memory` if out of memory. The row may then have any leaves, as it may for `Found`.
pub fn step_in_place(
    program: &Program,
    method: MethodId,
    point: usize,
    row: &mut Row,
    spare: &mut Spare,
) -> Result<Onward, Memory>
    requires there { method.0 < length (model_of program.now).methods }
    ensures outcome { IfOk result (λ o. onward_model o (row_model row.new)
        ≡ step_at (model_of program.now) method.0 (point, row_model row.old)) }
    ensures kept { IfOk result (λ o. KeepsRow o (row_model row.old) (row_model row.new)) }
{
    let site = Site {
        program,
        method: program.method(method),
        point,
        repeats: program.repeats(method),
    };
    match program.graph(method).instructions.get(point) {
        Some(instruction) => apply(&site, row, instruction, spare),
        None => Ok(Onward::Ends),
    }
}

/// Returns where a method continues from a point, with any row, if the instruction there is a condition.
pub fn condition(program: &Program, method: MethodId, point: usize) -> Option<Branches>
    requires there { method.0 < length (model_of program.now).methods }
    ensures goes { IfSome result (λ branches. (row : List LeafModel)
        → step_at (model_of program.now) method.0 (point, row) ≡ Goes (ways branches row)) }
    ensures which { IsSomeAnd (slice_get (model_of program.now).methods method.0)
        (λ m. result ≡ condition_at (slice_get (graph_of m).instructions point)) }
{
    match program.graph(method).instructions.get(point) {
        Some(instruction) => branches_of(instruction),
        None => None,
    }
}

/// Returns where a condition continues, if the instruction is one.
fn branches_of(instruction: &Instr) -> Option<Branches>
    ensures { result ≡ condition_at (Some (instruction_model instruction.now)) }
{
    match instruction {
        Instr::Branch { branches, .. } => Some(*branches),
        Instr::Act { .. } | Instr::New { .. } | Instr::Send(_) | Instr::Switch { .. } => None,
        Instr::Forget { .. } | Instr::Call(_) | Instr::Start(_) => None,
        Instr::Return(_) | Instr::Stop { .. } => None,
    }
}

/// Turns the outcome of a step in place into one with rows of its own.
fn apart(alloc: Global, onward: Onward, row: Row) -> Result<Outcome, Memory>
    ensures { IfOk result (λ o. outcome_model o ≡ onward_model onward (row_model row)) }
{
    match onward {
        Onward::Ends => Ok(Outcome::Next(Vec::new(alloc))),
        Onward::Same(point) | Onward::Changed(point) => goes(alloc, point, row),
        Onward::Both(first, second) => goes_both(alloc, first, second, row),
        Onward::Ways(pairs) => Ok(Outcome::Next(pairs)),
        Onward::Found(breach) => Ok(Outcome::Found(breach)),
    }
}

/// Returns the outcome that the method continues at one point, with this row.
fn goes(alloc: Global, point: usize, row: Row) -> Result<Outcome, Memory>
    ensures { IfOk result (λ o. outcome_model o ≡ Goes ((point, row_model row) ∷ [])) }
{
    let mut pairs = Vec::new(alloc);
    pairs.push((point, row))?;
    Ok(Outcome::Next(pairs))
}

/// Returns the outcome that the method continues at one of two points, with this row.
fn goes_both(alloc: Global, first: usize, second: usize, row: Row) -> Result<Outcome, Memory>
    ensures { IfOk result (λ o. outcome_model o ≡ Goes ((first, row_model row) ∷ (second, row_model row) ∷ [])) }
{
    let mut pairs = Vec::new(alloc);
    pairs.push((first, row.copy(alloc)?))?;
    pairs.push((second, row))?;
    Ok(Outcome::Next(pairs))
}
