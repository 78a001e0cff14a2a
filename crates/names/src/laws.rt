//! Laws about names. They hold for every program, whatever the code does.

ghost use Rattle.std.specs.Prelude.{◌≡◌, [], All};
ghost use Rattle.tree.specs.Trees.{contracts_of};
ghost use Rattle.declarations.specs.Program.{ProgramText};
ghost use Rattle.declarations.specs.Resolution.{resolved_contracts};
ghost use Rattle.names.specs.Findings.{program_mistakes};
ghost use Rattle.program.specs.Parts.{IsWhole};

use declarations::laws::contracts_without_findings_are_whole;

/// The contracts of a program without mistakes are whole.
pub fn clean_contracts_are_whole()
    ensures { (p : ProgramText) → program_mistakes p ≡ [] → All (λ c. IsWhole c.parts) (resolved_contracts p.text (contracts_of p.items)) }
{
    contracts_without_findings_are_whole();
}
