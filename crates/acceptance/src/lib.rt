//! Tests of what no clause states, against the library that a user calls, and what threads share below it.
#![tactic(auto)]

#[cfg(test)]
mod answers;
#[cfg(test)]
mod checks;
#[cfg(test)]
mod commands;
#[cfg(test)]
mod entry_lines;
#[cfg(test)]
mod failing_devices;
#[cfg(test)]
mod faults;
#[cfg(test)]
mod gates;
#[cfg(test)]
mod reading;
#[cfg(test)]
mod reasons;
#[cfg(test)]
mod runs_and_searches;
#[cfg(test)]
mod schedules;
#[cfg(test)]
mod sharing;
#[cfg(test)]
mod shelves;
#[cfg(test)]
mod shown;
#[cfg(test)]
mod texts;
#[cfg(test)]
mod traced_replays;
