//! Laws about well formed methods. They hold for every program, whatever the code does.

ghost use Rattle.std.specs.Prelude.{◌≡◌, []};
ghost use Rattle.names.specs.Findings.{program_mistakes};
ghost use Rattle.declarations.specs.Program.{ProgramText};
ghost use Rattle.program.specs.Lists.{Each};
ghost use Rattle.program.specs.WellFormed.{AreWellFormed};
ghost use Rattle.resolving.specs.Methods.{methods_told};
ghost use Rattle.wellformed.specs.Bare.{IsBare};
ghost use Rattle.wellformed.specs.Told.{program_told};

/// If there are no mistakes in the names of a program, its methods are well formed in numbers (`formed`). A method of
/// any program that takes nothing has no parameter of the exchange heap (`bare`).
pub fn clean_methods_are_well_formed()
    ensures formed { (p : ProgramText) → program_mistakes p ≡ [] → AreWellFormed (program_told p) }
    ensures bare { (p : ProgramText) → Each IsBare (methods_told p) }
{}
