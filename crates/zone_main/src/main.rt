//! The program `zonewire`: zone files to the streams of their transfers, and back.
#![tactic(auto)]

#[cfg(test)]
mod tests;

use clap::error::ErrorKind;
use program_words::{UsageError, words_after_path};
use std::process::ExitCode;
use zonewire::{Ending, StdSink, StdSource, WordsFault, program};

/// The program's name, as the first word of a command line.
const NAME: &str = "zonewire";

fn main(rt: HostRuntime) -> ExitCode {
    let ending = match words_after_path(&rt) {
        Ok(words) => perform(&rt, words.as_slice()),
        Err(UsageError::OutOfMemory) => Ending::Refused(WordsFault::OutOfMemory),
        Err(UsageError::NotText) => {
            let _ = eprintln!(rt; "zonewire: a word is not UTF-8");
            return ExitCode::from(2);
        }
    };
    report(&rt, &ending);
    ExitCode::from(ending.status())
}

/// Runs the program with these words, from standard input to standard output.
fn perform(rt: &HostRuntime, given: &[String]) -> Ending {
    let mut words = Vec::new(rt.alloc());
    if words.push(NAME).is_err() {
        return Ending::Refused(WordsFault::OutOfMemory);
    }
    for word in given {
        if words.push(word.as_str()).is_err() {
            return Ending::Refused(WordsFault::OutOfMemory);
        }
    }
    let mut source = StdSource::new(rt.stdin());
    let mut sink = StdSink::new(rt.stdout());
    program(rt.alloc(), words.as_slice(), &mut source, &mut sink)
}

/// Writes on standard error why the program failed: the text of the fault, or that of `clap`, its help too.
fn report(rt: &HostRuntime, ending: &Ending) {
    let _ = match ending {
        Ending::Done => Ok(()),
        Ending::Failed(fault) => eprintln!(rt; "zonewire: {fault}"),
        Ending::Refused(WordsFault::Line(error)) if error.kind() != ErrorKind::OutOfMemory => {
            rt.eprint(error)
        }
        Ending::Refused(WordsFault::Line(_)) => eprintln!(rt; "zonewire: out of memory"),
        Ending::Refused(fault) => eprintln!(rt; "zonewire: {fault}"),
    };
}
