//! Laws about contracts. They hold for every program, whatever the code does.

ghost use Rattle.std.specs.Prelude.{◌≡◌, [], All};
ghost use Rattle.tree.specs.Trees.{contracts_of};
ghost use Rattle.declarations.specs.ItemMistakes.{contracts_mistakes};
ghost use Rattle.declarations.specs.Program.{ProgramText};
ghost use Rattle.declarations.specs.Resolution.{resolved_contracts};
ghost use Rattle.program.specs.Parts.{IsWhole};

/// The contracts of a program are whole if there are no mistakes in them.
pub fn contracts_without_findings_are_whole()
    ensures { (p : ProgramText) → contracts_mistakes p ≡ []
        → All (λ c. IsWhole c.parts) (resolved_contracts p.text (contracts_of p.items)) }
{}
