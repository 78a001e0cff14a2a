//! Where names come from.

ghost use Rattle.std.specs.Prelude.{◌≡◌, ℕ, IfOk, map};
ghost use Rattle.std.specs.BTreeMap.{get};
ghost use Rattle.std.specs.Ordering.{nat_cmp};
ghost use Rattle.lemmas.specs.Places.{first_position};
ghost use Rattle.program.specs.Parts.{contract_model};
ghost use Rattle.rules.specs.Programs.{model_of};
ghost use Rattle.replays.specs.Placed.{ArePlaced};

use lemmas::first_positions;
use program::{Contract, State};
use rules::Program;
use std::alloc::{AllocError, Global};
use std::collections::BTreeMap;

/// Where names come from: a program, the names of its structs in order of the text, and for each contract the index
/// of each state, by its number.
#[derive(Drop)]
pub(crate) struct Naming<'a> {
    pub(crate) program: &'a Program,
    pub(crate) structs: &'a [String],
    pub(crate) states: Vec<BTreeMap<u32, usize>>,
    ghost placed: { ArePlaced (model_of program.now).contracts states.items },
}

/// Returns the index of each of these states, by its number.
fn indices_of(alloc: Global, states: &[State]) -> Result<BTreeMap<u32, usize>, AllocError>
    ensures { IfOk result (λ m. (k : ℕ) → get nat_cmp m k ≡ first_position nat_cmp (map (λ s. s.id.0) states.now) k) }
{
    let numbers: Vec<u32> = states.iter().map(|state| state.id.0).collect(alloc)?;
    first_positions(alloc, &numbers)
}

/// Returns, for each contract, the index of each state, by its number.
pub(crate) fn indices_in(
    alloc: Global,
    contracts: &[Contract],
) -> Result<Vec<BTreeMap<u32, usize>>, AllocError>
    ensures { IfOk result (λ tables. ArePlaced (map contract_model contracts.now) tables.items) }
{
    let mut indices = Vec::new(alloc);
    for contract in contracts {
        indices.push(indices_of(alloc, &contract.states)?)?;
    }
    Ok(indices)
}
