//! Laws of programs.

ghost use Rattle.std.specs.Prelude.{◌≡◌};
ghost use Rattle.std.specs.Thread.{IsSync};
ghost use Rattle.program.specs.contracts.types.HeapType as ty;
ghost use Rattle.program.specs.contracts.methods.Methods as methods;
ghost use Rattle.program.specs.contracts.statement.Statement as statement;
ghost use Rattle.program.specs.declared.limits.TheConstants.{MOST_CONTRACTS, MOST_FIELDS, MOST_METHODS};
ghost use Rattle.program.specs.declared.limits.TheConstants.{MOST_PARAMETERS, MOST_STATES, MOST_VARIABLES};

use crate::statement::Statement;

/// The limits as numbers.
pub fn limits()
    ensures contracts { MOST_CONTRACTS ≡ 256 }
    ensures states { MOST_STATES ≡ 500000 }
    ensures fields { MOST_FIELDS ≡ 8 }
    ensures parameters { MOST_PARAMETERS ≡ 8 }
    ensures variables { MOST_VARIABLES ≡ 1000 }
    ensures methods { MOST_METHODS ≡ 4096 }
{}

/// Threads may share statements by reference.
pub fn threads_share_statements()
    ensures { IsSync statement.the_row }
{
    shared::<Statement>();
}

/// Threads may share methods and types by reference.
pub fn threads_share_methods()
    ensures methods { IsSync methods.the_row }
    ensures types { IsSync ty.the_row }
{
    threads_share_statements();
}

/// Threads may share values of this type by reference.
fn shared<T: Sync>()
    ensures { IsSync T.row }
{}
