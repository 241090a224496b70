//! The program `zonetool`: why a zone is refused, what changed between two zones, a zone in canonical order, the numbers of
//! a zone, and the query for a transfer.
#![tactic(auto)]

mod color;
mod explaining;
mod fault;
mod finding_text;
mod input;
mod presented;
mod progress;
mod table;
mod tasks;

use clap::error::ErrorKind;
use fault::Fault;
use program_words::{UsageError, words_after_path};
use std::process::ExitCode;
use tasks::perform;
use tool_words::{WordsFault, task_of};

/// The program's name, as the first word of a command line.
const NAME: &str = "zonetool";

/// The exit status of `diff` if the zones differ, and of `explain` if the text is no zone's.
const DIFFERENCE: u8 = 1;

/// The exit status of a run that failed.
const TROUBLE: u8 = 2;

fn main(rt: HostRuntime) -> ExitCode {
    let status = match words_after_path(&rt) {
        Ok(words) => status_of(&rt, words.as_slice()),
        Err(UsageError::OutOfMemory) => report(&rt, &Fault::OutOfMemory),
        Err(UsageError::NotText) => {
            let _ = eprintln!(rt; "zonetool: a word is not UTF-8");
            TROUBLE
        }
    };
    ExitCode::from(status)
}

/// Performs the task that the words name, and returns the exit status: 0, 1 if there is a difference or something to
/// explain, and 2 if it fails.
fn status_of(rt: &HostRuntime, given: &[String]) -> u8 {
    let mut words = Vec::new(rt.alloc());
    if words.push(NAME).is_err() {
        return report(rt, &Fault::OutOfMemory);
    }
    for word in given {
        if words.push(word.as_str()).is_err() {
            return report(rt, &Fault::OutOfMemory);
        }
    }
    let task = match task_of(rt.alloc(), words.as_slice()) {
        Ok(task) => task,
        Err(fault) => return refuse(rt, &fault),
    };
    match perform(rt, task) {
        Ok(true) => 0,
        Ok(false) => DIFFERENCE,
        Err(fault) => report(rt, &fault),
    }
}

/// Writes why the words name no task: the text of the fault, or that of `clap`. Its help and its version are no fault.
/// Returns the exit status.
fn refuse(rt: &HostRuntime, fault: &WordsFault) -> u8 {
    match fault {
        WordsFault::Line(error) => match error.kind() {
            ErrorKind::DisplayHelp | ErrorKind::DisplayVersion => match rt.print(error) {
                Ok(()) => 0,
                Err(_) => report(rt, &Fault::Write),
            },
            ErrorKind::OutOfMemory => report(rt, &Fault::OutOfMemory),
            _ => {
                let _ = rt.eprint(error);
                TROUBLE
            }
        },
        fault => {
            let _ = eprintln!(rt; "zonetool: {fault}");
            TROUBLE
        }
    }
}

/// Writes on standard error why the task failed. Returns the exit status.
fn report(rt: &HostRuntime, fault: &Fault<'_>) -> u8 {
    let _ = match fault {
        Fault::Read(file, error) => eprintln!(rt; "zonetool: {file}: read failed: {error}"),
        Fault::Write => eprintln!(rt; "zonetool: write failed"),
        Fault::Zone(file, error) => eprintln!(rt; "zonetool: {file}: {error}"),
        Fault::Form(file, error) => eprintln!(rt; "zonetool: {file}: {error}"),
        Fault::OutOfMemory => eprintln!(rt; "zonetool: out of memory"),
    };
    TROUBLE
}
