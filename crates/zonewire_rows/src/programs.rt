//! The program: its command lines, runs of the jobs that they name, and how it ends.
use dns_name::Name;
use rows::{Answer, Row, RowError};
use std::alloc::Global;
use zonewire::{Ending, Fault, Job, StdSink, StdSource, WordsFault, job, program, run};

/// Answers `job WORD..`: the job that the program's words name, by its command and its fields in order, names as
/// octets.
pub fn answer_job(alloc: Global, row: &mut Row<'_>, out: &mut Answer) -> Result<(), RowError> {
    match job_of_words(alloc, row)? {
        Ok(job) => show_job(&job, out),
        Err(fault) => show_fault(&fault, out),
    }
}

/// Answers `run text TEXT WORD..` and `run octets OCTETS WORD..`: what the job that the program's words name writes for
/// the input, as octets for `send` and `canon`, otherwise as text.
pub fn answer(alloc: Global, row: &mut Row<'_>, out: &mut Answer) -> Result<(), RowError> {
    let input = input_of(alloc, row)?;
    match job_of_words(alloc, row)? {
        Ok(job) => answer_run(alloc, job, input.as_slice(), out),
        Err(fault) => show_fault(&fault, out),
    }
}

/// Answers `program text TEXT WORD..` and `program octets OCTETS WORD..`: the exit status of the program with these
/// words and this input, the text that it writes to standard error after its name, and its output as text.
pub fn answer_program(alloc: Global, row: &mut Row<'_>, out: &mut Answer) -> Result<(), RowError> {
    let input = input_of(alloc, row)?;
    let owned = words_of(alloc, row)?;
    let mut words = Vec::new(alloc);
    for word in owned.iter() {
        words.push(word.as_str())?;
    }
    let mut output = Vec::new(alloc);
    let mut source = StdSource::new(input.as_slice());
    let mut sink = StdSink::new(&mut output);
    let ending = program(alloc, words.as_slice(), &mut source, &mut sink);
    if let Ending::Failed(Fault::Write) = ending {
        return Err(RowError::OutOfMemory);
    }
    let text = error_text(alloc, &ending)?;
    out.shown(&ending.status())?;
    out.text(text.as_bytes())?;
    out.text(output.as_slice())
}

/// Returns the text of the program's failure, or no text if the job was done. The texts of `clap` are left out of
/// answers.
fn error_text(alloc: Global, ending: &Ending) -> Result<String, RowError> {
    let text = match ending {
        Ending::Done => String::new(alloc),
        Ending::Failed(fault) => format!(in alloc; "{fault}")?,
        Ending::Refused(WordsFault::Line(_)) => format!(in alloc; "Line")?,
        Ending::Refused(fault) => format!(in alloc; "{fault}")?,
    };
    Ok(text)
}

/// Takes the input of a run.
pub fn input_of(alloc: Global, row: &mut Row<'_>) -> Result<Vec<u8>, RowError> {
    match row.word()? {
        "text" => row.text_octets(alloc),
        "octets" => row.octets(alloc),
        _ => Err(RowError::BadWord),
    }
}

/// Takes the rest of the row's words, and returns the job that they name, or why they name none.
fn job_of_words(alloc: Global, row: &mut Row<'_>) -> Result<Result<Job, WordsFault>, RowError> {
    let owned = words_of(alloc, row)?;
    let mut words = Vec::new(alloc);
    for word in owned.iter() {
        words.push(word.as_str())?;
    }
    Ok(job(alloc, words.as_slice()))
}

/// Takes the rest of the row's words.
pub fn words_of(alloc: Global, row: &mut Row<'_>) -> Result<Vec<String>, RowError> {
    let mut words = Vec::new(alloc);
    for _ in 0..u32::MAX {
        if !row.has_more() {
            break;
        }
        words.push(row.text(alloc)?)?;
    }
    Ok(words)
}

/// Writes why words name no job. The texts of `clap` are left out of answers.
fn show_fault(fault: &WordsFault, out: &mut Answer) -> Result<(), RowError> {
    match fault {
        WordsFault::Line(_) => out.shown(&"refused Line"),
        fault => out.refused(fault),
    }
}

/// Writes a job's command and fields.
fn show_job(job: &Job, out: &mut Answer) -> Result<(), RowError> {
    match job {
        Job::Send {
            origin,
            class,
            id,
            apex,
            max,
            spelling,
        } => {
            out.shown(&"Send")?;
            out.octets(octets_of(origin))?;
            out.shown(&class.to_int())?;
            out.shown(id)?;
            out.octets(octets_of(apex))?;
            out.shown(max)?;
            out.named(spelling)
        }
        Job::Receive {
            class,
            id,
            apex,
            layout,
        } => {
            out.shown(&"Receive")?;
            out.shown(&class.to_int())?;
            out.shown(id)?;
            out.octets(apex.as_slice())?;
            out.named(layout)
        }
        Job::Check { origin, class } => show_text_job("Check", origin, class.to_int(), out),
        Job::Canon { origin, class } => show_text_job("Canon", origin, class.to_int(), out),
    }
}

/// Writes a job that only reads a zone's text.
fn show_text_job(
    command: &str,
    origin: &Option<Name<Vec<u8>>>,
    class: u16,
    out: &mut Answer,
) -> Result<(), RowError> {
    out.shown(&command)?;
    out.octets(octets_of(origin))?;
    out.shown(&class)
}

/// Returns the octets of a name, or none if there is no name.
fn octets_of(name: &Option<Name<Vec<u8>>>) -> &[u8] {
    match name {
        Some(name) => name.as_slice(),
        None => &[],
    }
}

/// Writes the output of the job for the input. The row has no answer if a run that fails has written something. The sink
/// is a vector, so a write fails only if out of memory.
fn answer_run(alloc: Global, job: Job, input: &[u8], out: &mut Answer) -> Result<(), RowError> {
    let is_octets = matches!(&job, Job::Send { .. } | Job::Canon { .. });
    let mut output = Vec::new(alloc);
    let mut source = StdSource::new(input);
    let mut sink = StdSink::new(&mut output);
    match run(alloc, &mut source, &mut sink, job) {
        Ok(()) if is_octets => out.octets(output.as_slice()),
        Ok(()) => out.text(output.as_slice()),
        Err(Fault::Write) => Err(RowError::OutOfMemory),
        Err(fault) if output.is_empty() => out.refused(&fault),
        Err(_) => Err(RowError::BadWord),
    }
}
