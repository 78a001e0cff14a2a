//! The data from which the conditions and the bounds of a contract are read.

ghost use Rattle.std.specs.Prelude.{IfOk};
ghost use Rattle.contracts.specs.Drawings.{IsDrawing};
ghost use Rattle.contracts.specs.Parts.{IsWhole, contract_parts};

use crate::arcs::{Marks, SignGraph};
use crate::bounds::{Bounds, bounds_of};
use crate::keys::states_of;
use program::{Contract, Sign};
use std::alloc::{AllocError, Global};

/// The marks of the states of a contract for each sign, and its bounds, which are right if it is sound.
#[derive(Drop)]
pub struct Drawing {
    pub sends: Marks,
    pub receives: Marks,
    pub bounds: Bounds,
}

/// Draws the edges of each sign as a graph and keeps only the marks and the bounds. The graphs are dropped, so that a large contract
/// takes less memory.
pub fn drawing_of(alloc: Global, contract: &Contract) -> Result<Drawing, AllocError>
    requires whole { IsWhole (contract_parts contract.now) }
    ensures { IfOk result (IsDrawing contract.now) }
{
    let states = states_of(contract);
    let sends = SignGraph::new(alloc, &contract.edges, states, Sign::Send)?;
    let receives = SignGraph::new(alloc, &contract.edges, states, Sign::Receive)?;
    let bounds = bounds_of(alloc, contract, &sends, &receives)?;
    Ok(Drawing {
        sends: sends.into_marks(alloc)?,
        receives: receives.into_marks(alloc)?,
        bounds,
    })
}
