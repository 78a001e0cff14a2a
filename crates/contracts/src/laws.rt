//! Laws of contracts. They hold for all parts, whatever the code does.

ghost use Rattle.std.specs.Prelude.{ℕ, List};
ghost use Rattle.std.specs.Thread.{IsSync};
ghost use Rattle.contracts.specs.Bounds.{IsBound, sign_to};
ghost use Rattle.contracts.specs.Conditions.{AreExactly, FindingModel, IsFlaw, IsSound};
ghost use Rattle.contracts.specs.Parts.{IsWhole, Parts};
ghost use Rattle.contracts.specs.contracts.sound.Sound as sound;
ghost use Rattle.program.specs.declared.types.Side.{Side};

use crate::sound::Sound;

/// The findings of a contract form a list, and the bounds of a sound one are numbers, both as double negations, so `Memory` is never
/// the only result allowed.
pub fn each_contract_is_judged()
    ensures found { (parts : Parts) → ((found : List FindingModel) → AreExactly (IsFlaw parts) found → ⊥) → ⊥ }
    ensures bounds { (parts : Parts) → IsWhole parts → IsSound parts → (side : Side)
        → ((n : ℕ) → IsBound parts.edges parts.first (sign_to side) n → ⊥) → ⊥ }
{}

/// Threads may share a sound contract by reference.
pub fn threads_share_a_contract()
    ensures { IsSync sound.the_row }
{
    shared::<Sound>();
}

/// Values of this type may be shared.
fn shared<T: Sync>()
    ensures { IsSync T.row }
{}
