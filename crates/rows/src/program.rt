//! Answers the rows of standard input one after another.
use crate::names::Names;
use crate::words::{Words, is_plain};
use crate::{Answer, Row, RowError};
use std::alloc::Global;
use std::io;
use std::process::ExitCode;

/// The calls whose rows a program answers.
pub trait Calls {
    /// Takes the arguments of the call that the row names, and writes what the call returns.
    fn answer(&self, alloc: Global, row: &mut Row<'_>, out: &mut Answer) -> Result<(), RowError>;
}

/// Prints the answer to each row of standard input. The status is 1 if a row has no answer.
pub fn answer_rows<C: Calls>(rt: &HostRuntime, calls: &C) -> ExitCode {
    match answer_lines(rt, calls) {
        Ok(()) => ExitCode::SUCCESS,
        Err(error) => {
            let _ = eprintln!(rt; "{error}");
            ExitCode::from(1)
        }
    }
}

/// Prints titles, and the answer to each row, up to the first row that has none.
fn answer_lines<C: Calls>(rt: &HostRuntime, calls: &C) -> io::Result<()> {
    let text = io::read_to_string(rt.alloc(), rt.stdin())?;
    let mut names = Names::new(rt.alloc());
    let mut number = 0u64;
    for line in text.lines() {
        number = number.saturating_add(1);
        if line.is_empty() || line.starts_with('#') {
            println!(rt; "{line}")?;
            continue;
        }
        match answer_line(rt.alloc(), calls, &mut names, line) {
            Ok(answer) => println!(rt; "{answer}")?,
            Err(error) => {
                eprintln!(rt; "row {number}: {error}: {line}")?;
                return Err(io::Error::from(io::ErrorKind::InvalidData));
            }
        }
    }
    Ok(())
}

/// Returns the answer to a row. That of a `let` line is empty.
fn answer_line<C: Calls>(
    alloc: Global,
    calls: &C,
    names: &mut Names,
    line: &str,
) -> Result<String, RowError> {
    if let Some(named) = line.strip_prefix("let ") {
        names.add(alloc, named)?;
        return Ok(String::new(alloc));
    }
    if is_plain(line) {
        return answer_call(alloc, calls, line);
    }
    let line = Words::read(alloc, names, line)?.into_line()?;
    answer_call(alloc, calls, line.as_str())
}

/// Returns the answer to a call.
fn answer_call<C: Calls>(alloc: Global, calls: &C, line: &str) -> Result<String, RowError> {
    let (says_why, line) = without(line, "why ");
    let (repeats, line) = without(line, "again ");
    let mut row = Row::new(line, repeats);
    let mut answer = Answer::new(String::new(alloc), says_why);
    calls.answer(alloc, &mut row, &mut answer)?;
    if row.has_more() {
        return Err(RowError::TrailingWord);
    }
    Ok(answer.into_line())
}

/// Returns whether a line begins with a word, and the line without it.
fn without<'a>(line: &'a str, word: &str) -> (bool, &'a str) {
    match line.strip_prefix(word) {
        Some(rest) => (true, rest),
        None => (false, line),
    }
}
