//! Laws of the search. They hold for every program.

ghost use Rattle.std.specs.Prelude.{◌≡◌, ℕ, List, Some, slice_get};
ghost use Rattle.source.specs.Findings.{FindingModel};
ghost use Rattle.program.specs.Methods.{MethodModel};
ghost use Rattle.program.specs.Programs.{ProgramModel};
ghost use Rattle.rules.specs.Outcomes.{Pair};
ghost use Rattle.rows.specs.Rows.{IsRowOf};
ghost use Rattle.rules.specs.Steps.{entry_of, outcome};
ghost use Rattle.analyse.specs.Reach.{Reached};
ghost use Rattle.analyse.specs.Verdicts.{IsMethodVerdict};
ghost use Rattle.analyse.specs.declared.analysing.TheConstants.{MOST_PAIRS};

use rules::laws::a_leaf_for_each_variable;

/// The limit, in digits.
pub fn limits()
    ensures pairs { MOST_PAIRS ≡ 20000 }
{}

/// The row of each reachable pair has a leaf for each variable of the method.
pub fn reached_rows_are_whole()
    ensures { (p : ProgramModel) (n : ℕ) (m : MethodModel) (pair : Pair) → slice_get p.methods n ≡ Some m
        → Reached (outcome p n) (entry_of p n) pair → IsRowOf m pair.1 }
{
    a_leaf_for_each_variable();
}

/// Each method has a verdict, as a double negation: its findings are a list, so `Memory` is never the only result allowed.
pub fn each_method_has_a_verdict()
    ensures { (p : ProgramModel) (n : ℕ) → ((found : List FindingModel) → IsMethodVerdict p n found → ⊥) → ⊥ }
{}
