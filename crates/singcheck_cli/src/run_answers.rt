//! The answers of `replay`, `run` and `explore`.

use crate::with_error::WithError;
use crate::{Output, status, unread};
use singcheck::{
    Counted, Detail, Input, Lines, RunFault, RunOptions, Sink, Status, Wanted, run_entries,
    run_explore, run_random, run_replay, run_trace,
};
use std::fs;
use std::io::Write;
use std::rt::Files;

/// The form of a schedule, for those whose schedule has another.
const SCHEDULE_FORM: &str =
    "a line is PROCESS CHOICE: two numbers up to 4294967295, with spaces between them; # begins a comment; at most 1048576 bytes in all";

/// What a replay is asked for: the file with the schedule, and which events have lines.
#[derive(Clone, Copy)]
pub(crate) struct ReplayOptions<'a> {
    pub(crate) schedule: &'a str,
    pub(crate) lines: Lines,
}

pub(crate) fn answer_replay<R: AllocGlobal + Files + Eprint, O: Write, E: Sink>(
    rt: &R,
    file: &str,
    entry: &str,
    wanted: &ReplayOptions<'_>,
    output: &mut Output<O>,
    errors: &mut E,
) -> u8 {
    let alloc = rt.alloc();
    let mut text = match fs::open(rt, file) {
        Ok(text) => Counted::new(WithError::new(text)),
        Err(error) => return unread(rt, Input::Text, file, error, errors),
    };
    let mut events = match fs::open(rt, wanted.schedule) {
        Ok(events) => Counted::new(WithError::new(events)),
        Err(error) => return unread(rt, Input::Schedule, wanted.schedule, error, errors),
    };
    let begin = entry.as_bytes();
    let answered = match detail_of(wanted.lines) {
        None => run_replay(alloc, &mut text, begin, &mut events, output),
        Some(detail) => run_trace(alloc, &mut text, begin, &mut events, detail, output),
    };
    let (name, error) = match answered {
        Err(RunFault::Entry) => (entry, None),
        Err(RunFault::Read(Input::Schedule)) => (wanted.schedule, events.device.error),
        _ => (file, text.device.error),
    };
    let status = status(rt, answered, name, error, output, errors);
    explain_refusal(rt, &answered, file, entry, errors);
    status
}

/// Returns the detail of the lines of events. `None` if no event has one.
fn detail_of(lines: Lines) -> Option<Detail> {
    match lines {
        Lines::Silent => None,
        Lines::Notable => Some(Detail::Notable),
        Lines::Everything => Some(Detail::Everything),
    }
}

/// What a search is asked for: the most worlds that it visits, and the file to which a schedule goes, if it is named.
#[derive(Clone, Copy)]
pub(crate) struct SearchOptions<'a> {
    pub(crate) worlds: usize,
    pub(crate) schedule: Option<&'a str>,
}

pub(crate) fn answer_run<R: AllocGlobal + Files + Eprint, O: Write, E: Sink>(
    rt: &R,
    file: &str,
    entry: &str,
    wanted: &Wanted<'_>,
    output: &mut Output<O>,
    errors: &mut E,
) -> u8 {
    let mut text = match fs::open(rt, file) {
        Ok(text) => Counted::new(WithError::new(text)),
        Err(error) => return unread(rt, Input::Text, file, error, errors),
    };
    let options = options_of(wanted);
    let ran = run_random(rt.alloc(), &mut text, entry.as_bytes(), &options, output);
    let (answered, schedule) = parts_of(ran);
    let (name, error) = match answered {
        Err(RunFault::Entry) => (entry, None),
        _ => (file, text.device.error),
    };
    let status = status(rt, answered, name, error, output, errors);
    explain_refusal(rt, &answered, file, entry, errors);
    // A text with findings has status 1, so with status 0 a run was printed.
    if status == 0 && schedule.is_none() && wanted.schedule.is_some() {
        let _ = rt.eprintln("singcheck: no schedule has that many events");
    }
    write_schedule(rt, wanted.schedule, schedule, status)
}

pub(crate) fn answer_explore<R: AllocGlobal + Files + Eprint, O: Write, E: Sink>(
    rt: &R,
    file: &str,
    entry: &str,
    options: &SearchOptions<'_>,
    output: &mut Output<O>,
    errors: &mut E,
) -> u8 {
    let mut text = match fs::open(rt, file) {
        Ok(text) => Counted::new(WithError::new(text)),
        Err(error) => return unread(rt, Input::Text, file, error, errors),
    };
    let ran = run_explore(
        rt.alloc(),
        &mut text,
        entry.as_bytes(),
        options.worlds,
        output,
    );
    let (answered, schedule) = parts_of(ran);
    let (name, error) = match answered {
        Err(RunFault::Entry) => (entry, None),
        _ => (file, text.device.error),
    };
    let status = status(rt, answered, name, error, output, errors);
    explain_refusal(rt, &answered, file, entry, errors);
    write_schedule(rt, options.schedule, schedule, status)
}

/// Returns the status of a run, or its fault, and its schedule, if it has one.
fn parts_of(
    ran: Result<(Status, Option<Vec<u8>>), RunFault>,
) -> (Result<Status, RunFault>, Option<Vec<u8>>) {
    match ran {
        Ok((status, schedule)) => (Ok(status), schedule),
        Err(fault) => (Err(fault), None),
    }
}

/// Says more, after the line of a fault, of an entry that is none, and of a malformed schedule.
fn explain_refusal<R: AllocGlobal + Files + Eprint, E: Sink>(
    rt: &R,
    answered: &Result<Status, RunFault>,
    file: &str,
    entry: &str,
    errors: &mut E,
) {
    match answered {
        Err(RunFault::Entry) if is_plain(rt, file) => {
            if let Ok(text) = fs::open(rt, file) {
                let mut text = Counted::new(text);
                // The line of the fault is written; what cannot be added is left out.
                let _ = run_entries(rt.alloc(), &mut text, entry.as_bytes(), errors);
            }
        }
        Err(RunFault::Schedule(_)) => {
            let _ = rt.eprintln(SCHEDULE_FORM);
        }
        _ => {}
    }
}

/// Returns whether this is the name of a file that can be read again. A pipe cannot.
fn is_plain<R: Files>(rt: &R, name: &str) -> bool {
    match fs::metadata(rt, name) {
        Ok(metadata) => metadata.is_file(),
        Err(_) => false,
    }
}

/// Returns the options of a random run.
fn options_of(wanted: &Wanted<'_>) -> RunOptions {
    RunOptions {
        seed: wanted.seed as u64,
        runs: wanted.runs as u64,
        steps: wanted.steps as u64,
        detail: if wanted.all {
            Detail::Everything
        } else {
            Detail::Notable
        },
    }
}

/// Writes the schedule of a run to a file, if there is one and a file is named. Returns the status of the run, or 3 after two lines that
/// say why the file cannot be written.
fn write_schedule<R: AllocGlobal + Files + Eprint>(
    rt: &R,
    name: Option<&str>,
    schedule: Option<Vec<u8>>,
    status: u8,
) -> u8 {
    let (Some(name), Some(schedule)) = (name, schedule) else {
        return status;
    };
    match fs::write(rt, name, &schedule) {
        Ok(()) => status,
        Err(error) => {
            let _ = rt.eprintln(format_args!("singcheck: cannot write {name}"));
            let _ = rt.eprintln(error);
            3
        }
    }
}
