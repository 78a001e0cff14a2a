//! Taking a contract out of a program.

ghost use Rattle.std.specs.Prelude.{◌≡◌, ◌<◌, length, map, slice_get};
ghost use Rattle.contracts.specs.Parts.{contract_parts};

use program::{Contract, ContractId, Resolved};

/// Returns the contract that has the number, with the states, messages and edges that `faults` and `Sound` ask for.
///
/// Borrows from the program: nothing is copied or allocated.
pub fn edges(resolved: &Resolved, id: ContractId) -> &Contract
    requires { id.0 < length resolved.now.contracts.items }
    ensures { slice_get (map contract_parts resolved.now.contracts.items) id.0 ≡ Some (contract_parts result.now) }
{
    &resolved.contracts[id.0 as usize]
}
