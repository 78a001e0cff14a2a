//! How a line names a state of a contract.

ghost use Rattle.std.specs.Prelude.{◌≡◌};
ghost use Rattle.program.specs.Parts.{contract_parts};
ghost use Rattle.explanations.specs.Lines.{name_of_state};

use program::Contract;

/// Returns how a state of the contract is printed; empty if there is no such state.
pub fn state_name(contract: &Contract, state: u32) -> &[u8]
    ensures { result.now ≡ name_of_state (contract_parts contract.now) state }
{
    let position = state.saturating_sub(contract.first.0);
    match contract.states.get(position as usize) {
        Some(state) => contract.state_name(*state),
        None => &[],
    }
}
