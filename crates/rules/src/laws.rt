//! Laws of the rule table. They hold for every program.

ghost use Rattle.std.specs.Prelude.{◌≡◌, ◌↔◌, ℕ, List, All, Some, slice_get};
ghost use Rattle.std.specs.Thread.{IsSync};
ghost use Rattle.std.specs.declared.cmp.Ordering.TheVariants.{Equal};
ghost use Rattle.program.specs.Methods.{MethodModel};
ghost use Rattle.program.specs.Programs.{ProgramModel};
ghost use Rattle.rules.specs.Outcomes.{Goes, Pair};
ghost use Rattle.rows.specs.Rows.{IsRowOf};
ghost use Rattle.rules.specs.Steps.{entry_of, outcome};
ghost use Rattle.rules.specs.contracts.lowered.Program as program;
ghost use Rattle.rules.specs.contracts.repeats.Repeats as repeats;
ghost use Rattle.rules.specs.declared.breach.Breach.{Breach as BreachModel};

use crate::breach::Breach;
use crate::repeats::Repeats;
use contracts::laws::threads_share_a_contract;
use flow::laws::threads_share_a_graph;
use program::laws::threads_share_methods;

/// The row with which a method begins has a leaf for each of its variables, and a step from such a row leads only to such rows.
pub fn a_leaf_for_each_variable()
    ensures entry { (p : ProgramModel) (n : ℕ) (m : MethodModel)
        → slice_get p.methods n ≡ Some m → IsRowOf m (entry_of p n).1 }
    ensures step { (p : ProgramModel) (n : ℕ) (m : MethodModel) (pair : Pair) (to : List Pair)
        → slice_get p.methods n ≡ Some m → IsRowOf m pair.1 → outcome p n pair ≡ Goes to → All (λ to. IsRowOf m to.1) to }
{}

/// Two breaches compare as equal exactly if they are the same.
pub fn equal_breaches_are_one()
    ensures { (a b : BreachModel) → (⟦<Breach as Ord>⟧.cmp a b ≡ Equal) ↔ (a ≡ b) }
{}

/// Threads may share a program by reference.
pub fn threads_share_a_program()
    ensures { IsSync program.the_row }
{
    threads_share_methods();
    threads_share_a_contract();
    threads_share_a_graph();
    threads_share_repeats();
}

/// Threads may share the repeated arguments of calls and starts by reference.
fn threads_share_repeats()
    ensures { IsSync repeats.the_row }
{
    shared::<Repeats>();
}

/// Values of this type may be shared.
fn shared<T: Sync>()
    ensures { IsSync T.row }
{}
