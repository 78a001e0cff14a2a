//! What a command line asks for.

ghost use Rattle.std.specs.Prelude.{codes, map, IfOk, IfSome};
ghost use Rattle.clap.specs.Words.{found_of, rows_of};
ghost use Rattle.command_line.specs.Asking.{Asks, IsAskOf, IsPlaceText, NamesPlace};

use crate::commands::whole_of;
use crate::request::{Ask, Lines, Wanted};
use clap::error::ErrorKind;
use clap::{ArgMatches, Error};
use source::Place;
use std::alloc::Global;

/// The default number of workers.
const WORKERS: usize = 4;

/// The default number of slots.
const SLOTS: usize = 65_536;

/// The default seed of a random run.
const SEED: usize = 1;

/// The default number of events that a random run has at most.
const STEPS: usize = 10_000;

/// The default number of worlds that a search visits at most.
const WORLDS: usize = 100_000;

/// Returns what the words of a command line ask for. The first word is the program's name.
///
/// # Errors
/// The text to show: the refusal, or the help or version if that was asked for.
pub fn ask<'a>(alloc: Global, words: &'a [&'a str]) -> Result<Ask<'a>, Error>
    ensures { IfOk result (Asks (map (λ w. w.now) words.entry.now)) }
{
    let mut command = whole_of(alloc)?;
    let matches = command.try_get_matches_from_mut(words)?;
    let Some((subcommand, inner)) = matches.subcommand() else {
        return Err(command.error(ErrorKind::MissingSubcommand, "a subcommand is required")?);
    };
    match arguments_asked(subcommand, inner) {
        Some(asked) => Ok(asked),
        None => Err(command.error(ErrorKind::InvalidValue, refusal_of(subcommand))?),
    }
}

/// Returns what the arguments of a subcommand ask for. `None` if a number of them is 0, or a place is malformed.
fn arguments_asked<'a>(subcommand: &str, inner: &ArgMatches<'a>) -> Option<Ask<'a>>
    ensures { IfSome result (IsAskOf subcommand.now (rows_of (found_of inner.now))) }
{
    match subcommand {
        "bounds" => bounds_asked(inner),
        "check" => check_asked(inner),
        "replay" => replay_asked(inner),
        "why" => why_asked(inner),
        "run" => run_asked(inner),
        "explore" => explore_asked(inner),
        _ => None,
    }
}

/// Returns why the arguments of a subcommand ask for nothing.
fn refusal_of(subcommand: &str) -> &'static str {
    match subcommand {
        "run" => "--steps and --runs are at least 1",
        "explore" => "--worlds is at least 1",
        "why" => "LINE:COL takes two numbers",
        // `clap` makes sure that the others have all arguments, and each value of these asks for something.
        _ => "an argument is missing",
    }
}

/// Returns what the arguments of `bounds` ask for.
fn bounds_asked<'a>(inner: &ArgMatches<'a>) -> Option<Ask<'a>>
    ensures { IfSome result (IsAskOf (codes "bounds") (rows_of (found_of inner.now))) }
{
    let file = inner.get_str("FILE")?;
    Some(Ask::Bounds { file })
}

/// Returns what the arguments of `check` ask for.
fn check_asked<'a>(inner: &ArgMatches<'a>) -> Option<Ask<'a>>
    ensures { IfSome result (IsAskOf (codes "check") (rows_of (found_of inner.now))) }
{
    let file = inner.get_str("FILE")?;
    Some(Ask::Check {
        file,
        workers: inner.get_one("workers").unwrap_or(WORKERS),
        slots: inner.get_one("slots").unwrap_or(SLOTS),
    })
}

/// Returns what the arguments of `run` ask for. `None` if the number of events or of runs is 0.
fn run_asked<'a>(inner: &ArgMatches<'a>) -> Option<Ask<'a>>
    ensures { IfSome result (IsAskOf (codes "run") (rows_of (found_of inner.now))) }
{
    let file = inner.get_str("FILE")?;
    let entry = inner.get_str("ENTRY")?;
    let wanted = Wanted {
        seed: inner.get_one("seed").unwrap_or(SEED),
        steps: inner.get_one("steps").unwrap_or(STEPS),
        runs: inner.get_one("runs").unwrap_or(1),
        all: inner.get_flag("all"),
        schedule: inner.get_str("schedule"),
    };
    if wanted.steps == 0 || wanted.runs == 0 {
        return None;
    }
    Some(Ask::Run {
        file,
        entry,
        wanted,
    })
}

/// Returns what the arguments of `explore` ask for. `None` if the number of worlds is 0.
fn explore_asked<'a>(inner: &ArgMatches<'a>) -> Option<Ask<'a>>
    ensures { IfSome result (IsAskOf (codes "explore") (rows_of (found_of inner.now))) }
{
    let file = inner.get_str("FILE")?;
    let entry = inner.get_str("ENTRY")?;
    let worlds = inner.get_one("worlds").unwrap_or(WORLDS);
    let schedule = inner.get_str("schedule");
    if worlds == 0 {
        return None;
    }
    Some(Ask::Explore {
        file,
        entry,
        worlds,
        schedule,
    })
}

/// Returns what the arguments of `replay` ask for.
fn replay_asked<'a>(inner: &ArgMatches<'a>) -> Option<Ask<'a>>
    ensures { IfSome result (IsAskOf (codes "replay") (rows_of (found_of inner.now))) }
{
    let file = inner.get_str("FILE")?;
    let entry = inner.get_str("ENTRY")?;
    let schedule = inner.get_str("SCHEDULE")?;
    Some(Ask::Replay {
        file,
        entry,
        schedule,
        lines: lines_asked(inner),
    })
}

/// Returns which events of a replay have lines.
fn lines_asked(inner: &ArgMatches<'_>) -> Lines {
    if inner.get_flag("all") {
        Lines::Everything
    } else if inner.get_flag("trace") {
        Lines::Notable
    } else {
        Lines::Silent
    }
}

/// Returns what the arguments of `why` ask for. `None` if they name a place that is malformed.
fn why_asked<'a>(inner: &ArgMatches<'a>) -> Option<Ask<'a>>
    ensures { IfSome result (IsAskOf (codes "why") (rows_of (found_of inner.now))) }
{
    let file = inner.get_str("FILE")?;
    let named = asked_place(inner)?;
    Some(Ask::Why { file, named })
}

/// Returns the place that the arguments of `why` name, if they name one. The outer `None` means that it is malformed.
fn asked_place(inner: &ArgMatches<'_>) -> Option<Option<Place>>
    ensures { IfSome result (NamesPlace (rows_of (found_of inner.now))) }
{
    match inner.get_str("LINE:COL") {
        Some(text) => Some(Some(place_of(text)?)),
        None => Some(None),
    }
}

/// Parses a place: `LINE:COL`. `None` if the text is not of that form.
fn place_of(text: &str) -> Option<Place>
    ensures { IfSome result (IsPlaceText text.now) }
{
    let (line, col) = text.split_once(':')?;
    let line = line.parse().ok()?;
    let col = col.parse().ok()?;
    Some(Place { line, col })
}
