//! The command line, as a `clap` command.

ghost use Rattle.std.specs.Prelude.{◌≡◌, codes, false, IfOk};
ghost use Rattle.clap.specs.Words.{rule_of};
ghost use Rattle.command_line.specs.Asking.{IsCommand, flag_rule, number_rule, option_rule, optional_rule, text_rule};
ghost use Rattle.command_line.specs.Asking.{bounds_command, check_command, replay_command, why_command};
ghost use Rattle.command_line.specs.Asking.{explore_command, run_command, whole_command};

use clap::{Arg, ArgAction, Command, value_parser};
use std::alloc::{AllocError, Global};

/// The version that `--version` prints.
const VERSION: &str = "0.1.0";

/// The help text after the commands.
const STATUSES: &str = "\
Exit status:
  0  nothing found, or the whole schedule ran
  1  something found, or the replay stopped early
  2  the command line, the entry or the schedule is refused
  3  a file could not be read, or the answer could not be written
  4  out of memory

Example: singcheck check examples/shop.sg";

/// The help text after the arguments of `bounds`.
const BOUNDS_EXAMPLE: &str = "Example: singcheck bounds examples/shop.sg";

/// The help text after the arguments of `check`.
const CHECK_EXAMPLE: &str = "Example: singcheck check --workers 8 examples/shop.sg";

/// The help text after the arguments of `replay`.
const REPLAY_EXAMPLE: &str =
    "Example: singcheck replay examples/shop.sg Street.Main examples/shop.schedule";

/// The help text after the arguments of `run`.
const RUN_EXAMPLE: &str = "Example: singcheck run examples/shop.sg Street.Main --seed 7";

/// The help text after the arguments of `explore`.
const EXPLORE_EXAMPLE: &str = "Example: singcheck explore examples/deadlock.sg Ring.Main";

/// The help text after the arguments of `why`.
const WHY_EXAMPLE: &str = "Example: singcheck why examples/note.sg 7:5";

/// Returns a required text argument.
fn text_of<'a>(alloc: Global, name: &'a str, help: &'a str) -> Arg<'a>
    ensures rule { rule_of result ≡ text_rule name.now }
    ensures local { result.global ≡ false }
{
    Arg::new(alloc, name)
        .required(true)
        .help(help)
        .action(ArgAction::Set)
}

/// Returns an optional text argument.
fn optional_of<'a>(alloc: Global, name: &'a str, help: &'a str) -> Arg<'a>
    ensures rule { rule_of result ≡ optional_rule name.now }
    ensures local { result.global ≡ false }
{
    Arg::new(alloc, name).help(help).action(ArgAction::Set)
}

/// Returns the required argument `FILE`.
fn file_of<'a>(alloc: Global) -> Arg<'a>
    ensures rule { rule_of result ≡ text_rule (codes "FILE") }
    ensures local { result.global ≡ false }
{
    text_of(alloc, "FILE", "The file with the program text")
}

/// Returns an option with a number. `clap` refuses a value that is no number of 64 bits.
fn number_of<'a>(alloc: Global, name: &'a str, help: &'a str) -> Arg<'a>
    ensures rule { rule_of result ≡ number_rule name.now }
    ensures local { result.global ≡ false }
{
    Arg::new(alloc, name)
        .long(name)
        .value_name("N")
        .value_parser(value_parser!(usize))
        .help(help)
        .action(ArgAction::Set)
}

/// Returns an option with a text.
fn option_of<'a>(alloc: Global, name: &'a str, value: &'a str, help: &'a str) -> Arg<'a>
    ensures rule { rule_of result ≡ option_rule name.now }
    ensures local { result.global ≡ false }
{
    Arg::new(alloc, name)
        .long(name)
        .value_name(value)
        .help(help)
        .action(ArgAction::Set)
}

/// Returns a flag.
fn flag_of<'a>(alloc: Global, name: &'a str, help: &'a str) -> Arg<'a>
    ensures rule { rule_of result ≡ flag_rule name.now }
    ensures local { result.global ≡ false }
{
    Arg::new(alloc, name)
        .long(name)
        .help(help)
        .action(ArgAction::SetTrue)
}

/// Returns the required argument `ENTRY`.
fn entry_argument<'a>(alloc: Global) -> Arg<'a>
    ensures rule { rule_of result ≡ text_rule (codes "ENTRY") }
    ensures local { result.global ≡ false }
{
    text_of(
        alloc,
        "ENTRY",
        "The method with which the run begins, as Class.Method",
    )
}

/// Returns the flag `--all`.
fn all_argument<'a>(alloc: Global) -> Arg<'a>
    ensures rule { rule_of result ≡ flag_rule (codes "all") }
    ensures local { result.global ≡ false }
{
    flag_of(
        alloc,
        "all",
        "Prints all events, uses, moves and the ends of scopes too",
    )
}

/// Returns the option `--schedule OUT`.
fn schedule_argument<'a>(alloc: Global) -> Arg<'a>
    ensures rule { rule_of result ≡ option_rule (codes "schedule") }
    ensures local { result.global ≡ false }
{
    option_of(
        alloc,
        "schedule",
        "OUT",
        "Writes the events to this file, as replay reads them",
    )
}

/// Returns the subcommand `bounds FILE`.
fn bounds_of<'a>(alloc: Global) -> Result<Command<'a>, AllocError>
    ensures { IfOk result (IsCommand bounds_command) }
{
    Command::new(alloc, "bounds")
        .about("Prints how long the queues of each contract can become")
        .after_help(BOUNDS_EXAMPLE)
        .arg(file_of(alloc))
}

/// Returns the subcommand `check FILE [--workers N] [--slots N]`.
fn check_of<'a>(alloc: Global) -> Result<Command<'a>, AllocError>
    ensures { IfOk result (IsCommand check_command) }
{
    Command::new(alloc, "check")
        .about("Reports what is wrong with a program")
        .after_help(CHECK_EXAMPLE)
        .arg(file_of(alloc))?
        .arg(number_of(
            alloc,
            "workers",
            "Number of threads that share the methods, 1 to 64, default 4",
        ))?
        .arg(number_of(
            alloc,
            "slots",
            "Entries of the table that they share, 8 bytes each, 1 to 16777216, default 65536",
        ))
}

/// Returns the subcommand `replay FILE ENTRY SCHEDULE [--trace] [--all]`.
fn replay_of<'a>(alloc: Global) -> Result<Command<'a>, AllocError>
    ensures { IfOk result (IsCommand replay_command) }
{
    Command::new(alloc, "replay")
        .about("Runs a method along a schedule and prints the final state")
        .after_help(REPLAY_EXAMPLE)
        .arg(file_of(alloc))?
        .arg(entry_argument(alloc))?
        .arg(text_of(
            alloc,
            "SCHEDULE",
            "The file with the events, one a line: the number of a process and a choice",
        ))?
        .arg(flag_of(alloc, "trace", "Prints a line for each event first"))?
        .arg(all_argument(alloc))
}

/// Returns the subcommand `run FILE ENTRY [--seed N] [--steps N] [--runs N] [--all] [--schedule OUT]`.
fn run_of<'a>(alloc: Global) -> Result<Command<'a>, AllocError>
    ensures { IfOk result (IsCommand run_command) }
{
    Command::new(alloc, "run")
        .about("Runs a method at random and prints what happens")
        .after_help(RUN_EXAMPLE)
        .arg(file_of(alloc))?
        .arg(entry_argument(alloc))?
        .arg(number_of(alloc, "seed", "The seed of the random choices, default 1"))?
        .arg(number_of(alloc, "steps", "The most events of a run, default 10000"))?
        .arg(number_of(
            alloc,
            "runs",
            "The number of runs, with seeds from --seed on, default 1",
        ))?
        .arg(all_argument(alloc))?
        .arg(schedule_argument(alloc))
}

/// Returns the subcommand `explore FILE ENTRY [--worlds N] [--schedule OUT]`.
fn explore_of<'a>(alloc: Global) -> Result<Command<'a>, AllocError>
    ensures { IfOk result (IsCommand explore_command) }
{
    Command::new(alloc, "explore")
        .about("Searches all runs of a method for a deadlock")
        .after_help(EXPLORE_EXAMPLE)
        .arg(file_of(alloc))?
        .arg(entry_argument(alloc))?
        .arg(number_of(
            alloc,
            "worlds",
            "The most worlds that are visited, default 100000",
        ))?
        .arg(schedule_argument(alloc))
}

/// Returns the subcommand `why FILE [LINE:COL]`.
fn why_of<'a>(alloc: Global) -> Result<Command<'a>, AllocError>
    ensures { IfOk result (IsCommand why_command) }
{
    Command::new(alloc, "why")
        .about("Reports what is wrong with a program, with explanations")
        .after_help(WHY_EXAMPLE)
        .arg(file_of(alloc))?
        .arg(optional_of(
            alloc,
            "LINE:COL",
            "A place: explain only the findings there",
        ))
}

/// Returns the whole command line.
pub(crate) fn whole_of<'a>(alloc: Global) -> Result<Command<'a>, AllocError>
    ensures { IfOk result (IsCommand whole_command) }
{
    Command::new(alloc, "singcheck")
        .about("Checks channel contracts and exchange-heap ownership of Sing# programs")
        .version(VERSION)
        .after_help(STATUSES)
        .subcommand_required(true)
        .arg_required_else_help(true)
        .bin_name("singcheck")?
        .subcommand(bounds_of(alloc)?)?
        .subcommand(check_of(alloc)?)?
        .subcommand(replay_of(alloc)?)?
        .subcommand(why_of(alloc)?)?
        .subcommand(run_of(alloc)?)?
        .subcommand(explore_of(alloc)?)
}
