//! The program `singcheck`: its arguments, files and exit statuses, and nothing else.
#![tactic(auto)]

mod numbers;
mod run_answers;
mod with_error;

use crate::numbers::fault_of;
use crate::run_answers::{ReplayOptions, SearchOptions, answer_explore, answer_replay, answer_run};
use crate::with_error::WithError;
use clap::error::{Error, ErrorKind};
use singcheck::{
    Ask, Counted, Input, Open, Place, RunFault, Sink, Status, ask, ending, run_bounds, run_check,
    run_why,
};
use std::alloc::{AllocError, Global};
use std::io::Write;
use std::process::ExitCode;
use std::rt::{Env, Files};
use std::sync::Wait;
use std::thread::Threads;
use std::{env, fs, io};

/// Where the answer goes.
pub(crate) type Output<O> = Counted<WithError<O>>;

fn main(rt: HostRuntime) -> ExitCode {
    let mut output = Counted::new(WithError::new(rt.stdout()));
    let mut errors = Counted::new(rt.stderr());
    ExitCode::from(run(&rt, &mut output, &mut errors))
}

/// Does what the command line asks for and returns the exit status.
fn run<R: AllocGlobal + Env + Files + Print + Eprint + Threads + Wait + Sync, O: Write, E: Sink>(
    rt: &R,
    output: &mut Output<O>,
    errors: &mut E,
) -> u8 {
    let texts = match texts_of_words(rt) {
        Ok(texts) => texts,
        Err(fault) if fault.kind() == io::ErrorKind::OutOfMemory => {
            return ending(&RunFault::Memory, "", errors);
        }
        Err(_) => {
            let _ = rt.eprintln("singcheck: a word of the command line is not UTF-8");
            return 2;
        }
    };
    match words_of(rt.alloc(), &texts) {
        Ok(words) => answer(rt, &words, output, errors),
        Err(AllocError) => ending(&RunFault::Memory, "", errors),
    }
}

fn texts_of_words<R: AllocGlobal + Env>(rt: &R) -> io::Result<Vec<String>> {
    let mut texts = Vec::new(rt.alloc());
    for word in env::args(rt)? {
        texts.push(word)?;
    }
    Ok(texts)
}

fn words_of(alloc: Global, texts: &[String]) -> Result<Vec<&str>, AllocError> {
    let mut words = Vec::new(alloc);
    for text in texts {
        words.push(text.as_str())?;
    }
    Ok(words)
}

fn answer<R: AllocGlobal + Files + Print + Eprint + Threads + Wait + Sync, O: Write, E: Sink>(
    rt: &R,
    words: &[&str],
    output: &mut Output<O>,
    errors: &mut E,
) -> u8 {
    match ask(rt.alloc(), words) {
        Ok(asked) => answer_asked(rt, asked, output, errors),
        Err(refusal) if refusal.kind() == ErrorKind::OutOfMemory => {
            ending(&RunFault::Memory, "", errors)
        }
        Err(refusal) if refusal.kind() == ErrorKind::ValueValidation => match fault_of(words) {
            Some(fault) => ending(&fault, "", errors),
            None => refuse(rt, &refusal, errors),
        },
        Err(refusal) => refuse(rt, &refusal, errors),
    }
}

/// Does what was asked for and returns the exit status.
fn answer_asked<R: AllocGlobal + Files + Eprint + Threads + Wait + Sync, O: Write, E: Sink>(
    rt: &R,
    asked: Ask<'_>,
    output: &mut Output<O>,
    errors: &mut E,
) -> u8 {
    match asked {
        Ask::Bounds { file } => answer_bounds(rt, file, output, errors),
        Ask::Check {
            file,
            workers,
            slots,
        } => answer_check(rt, file, workers, slots, output, errors),
        Ask::Replay {
            file,
            entry,
            schedule,
            lines,
        } => {
            let wanted = ReplayOptions { schedule, lines };
            answer_replay(rt, file, entry, &wanted, output, errors)
        }
        Ask::Why { file, named } => answer_why(rt, file, named, output, errors),
        Ask::Run {
            file,
            entry,
            wanted,
        } => answer_run(rt, file, entry, &wanted, output, errors),
        Ask::Explore {
            file,
            entry,
            worlds,
            schedule,
        } => {
            let options = SearchOptions { worlds, schedule };
            answer_explore(rt, file, entry, &options, output, errors)
        }
    }
}

/// Prints why the command line is refused, or the help that was asked for, and returns the exit status.
fn refuse<R: Print + Eprint, E: Sink>(rt: &R, refusal: &Error, errors: &mut E) -> u8 {
    match refusal.print(rt) {
        Ok(()) if refusal.use_stderr() => 2,
        Ok(()) => 0,
        Err(error) if error.kind() == io::ErrorKind::BrokenPipe => 3,
        Err(_) => ending(&RunFault::Write, "", errors),
    }
}

fn answer_bounds<R: AllocGlobal + Files + Eprint, O: Write, E: Sink>(
    rt: &R,
    file: &str,
    output: &mut Output<O>,
    errors: &mut E,
) -> u8 {
    let mut text = match fs::open(rt, file) {
        Ok(text) => Counted::new(WithError::new(text)),
        Err(error) => return unread(rt, Input::Text, file, error, errors),
    };
    let answered = run_bounds(rt.alloc(), &mut text, output);
    status(rt, answered, file, text.device.error, output, errors)
}

fn answer_check<R: AllocGlobal + Files + Eprint + Threads + Wait + Sync, O: Write, E: Sink>(
    rt: &R,
    file: &str,
    workers: usize,
    slots: usize,
    output: &mut Output<O>,
    errors: &mut E,
) -> u8 {
    let mut text = match fs::open(rt, file) {
        Ok(text) => Counted::new(WithError::new(text)),
        Err(error) => return unread(rt, Input::Text, file, error, errors),
    };
    let answered = run_check(rt, &mut text, output, workers, slots, &Open);
    status(rt, answered, file, text.device.error, output, errors)
}

fn answer_why<R: AllocGlobal + Files + Eprint, O: Write, E: Sink>(
    rt: &R,
    file: &str,
    named: Option<Place>,
    output: &mut Output<O>,
    errors: &mut E,
) -> u8 {
    let mut text = match fs::open(rt, file) {
        Ok(text) => Counted::new(WithError::new(text)),
        Err(error) => return unread(rt, Input::Text, file, error, errors),
    };
    let answered = run_why(rt.alloc(), &mut text, output, named);
    status(rt, answered, file, text.device.error, output, errors)
}

/// Returns the exit status of a run, after writing the line of its fault, if it failed. If an input failed, `error` says why. A closed
/// pipe has no line, since whoever closed it knows.
pub(crate) fn status<R: Eprint, O: Write, E: Sink>(
    rt: &R,
    answered: Result<Status, RunFault>,
    name: &str,
    error: Option<io::Error>,
    output: &Output<O>,
    errors: &mut E,
) -> u8 {
    match answered {
        Ok(Status::Empty) => 0,
        Ok(Status::Found) => 1,
        Err(RunFault::Write) if is_closed(output) => 3,
        Err(fault) => {
            let status = ending(&fault, name, errors);
            if let (RunFault::Read(_), Some(error)) = (fault, error) {
                let _ = rt.eprintln(error);
            }
            status
        }
    }
}

/// Writes that an input could not be opened, and why, and returns the exit status.
pub(crate) fn unread<R: Eprint, E: Sink>(
    rt: &R,
    input: Input,
    name: &str,
    error: io::Error,
    errors: &mut E,
) -> u8 {
    let status = ending(&RunFault::Read(input), name, errors);
    let _ = rt.eprintln(error);
    status
}

/// Returns whether the last write failed because nobody reads the output any more.
fn is_closed<O: Write>(output: &Output<O>) -> bool {
    match output.device.error {
        Some(error) => error.kind() == io::ErrorKind::BrokenPipe,
        None => false,
    }
}
