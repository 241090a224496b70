//! Runs in which each read and each write fails in turn.
use crate::programs::{input_of, words_of};
use rows::{Answer, Row, RowError};
use std::alloc::Global;
use std::io::{self, ErrorKind, Write};
use zonewire::{
    Fault, Job, ReceiveError, SendError, Source, StdSink, StdSource, StepSource, WordsFault,
    ZoneError, job, run,
};

/// The input of the runs, and the words that name their job.
#[derive(Drop)]
struct Given {
    alloc: Global,
    input: Vec<u8>,
    words: Vec<String>,
}

impl Given {
    /// Returns the job.
    fn job(&self) -> Result<Job, RowError> {
        let mut words = Vec::new(self.alloc);
        for word in self.words.iter() {
            words.push(word.as_str())?;
        }
        match job(self.alloc, words.as_slice()) {
            Ok(job) => Ok(job),
            Err(WordsFault::OutOfMemory) => Err(RowError::OutOfMemory),
            Err(_) => Err(RowError::BadWord),
        }
    }

    /// Runs the job, and returns its fault. Fails if out of memory.
    fn run<R: Source, W: Write>(
        &self,
        source: &mut R,
        writer: &mut W,
    ) -> Result<Option<Fault>, RowError> {
        let job = self.job()?;
        match run(self.alloc, source, &mut StdSink::new(writer), job) {
            Ok(()) => Ok(None),
            Err(Fault::OutOfMemory)
            | Err(Fault::Zone(ZoneError::OutOfMemory))
            | Err(Fault::Send(SendError::OutOfMemory))
            | Err(Fault::Receive(ReceiveError::OutOfMemory)) => Err(RowError::OutOfMemory),
            Err(fault) => Ok(Some(fault)),
        }
    }
}

/// How a write ends that takes no octet: it fails, is interrupted, or takes none.
const ENDINGS: [Option<ErrorKind>; 3] = [
    Some(ErrorKind::Other),
    Some(ErrorKind::Interrupted),
    None,
];

/// A writer that takes an octet a call. When none is left to take, each call has the ending.
#[derive(Drop)]
struct Failing {
    written: Vec<u8>,
    left: usize,
    ending: Option<ErrorKind>,
}

impl Write for Failing {
    fn write(&mut self, buf: &[u8]) -> io::Result<usize> {
        if self.left == 0 {
            return match self.ending {
                Some(kind) => Err(io::Error::from(kind)),
                None => Ok(0),
            };
        }
        self.left -= 1;
        let count = buf.len().min(1);
        self.written.extend_from_slice(&buf[..count])?;
        Ok(count)
    }

    fn flush(&mut self) -> io::Result<()> {
        Ok(())
    }
}

/// Answers `steps text TEXT WORD..` and `steps octets OCTETS WORD..`: in how many runs of the job that the program's
/// words name a read fails, in how many a write fails, how many shorter inputs have an output, and the output.
///
/// A read is of one octet, or of none at the end, and each fails in turn. A write takes one octet, and each fails in
/// turn, is interrupted, or takes none. A run whose read fails writes nothing, one whose write fails writes the octets
/// before, and one with another fault writes nothing. The row has no answer if one does not.
pub fn answer(alloc: Global, row: &mut Row<'_>, out: &mut Answer) -> Result<(), RowError> {
    let given = Given {
        alloc,
        input: input_of(alloc, row)?,
        words: words_of(alloc, row)?,
    };
    let mut output = Vec::new(alloc);
    let mut source = StepSource::new(given.input.as_slice(), None);
    match given.run(&mut source, &mut output)? {
        None => {}
        // (A vector refuses octets only if out of memory.)
        Some(Fault::Write) => return Err(RowError::OutOfMemory),
        Some(fault) => return out.refused(&fault),
    }
    for call in 1..given.input.len().saturating_add(2) {
        check_read(&given, call)?;
    }
    for left in 0..output.len() {
        for ending in ENDINGS {
            check_write(&given, output.as_slice(), left, ending)?;
        }
    }
    let shorter = shorter_inputs(&given)?;
    out.shown(&given.input.len().saturating_add(1))?;
    out.shown(&output.len().saturating_mul(ENDINGS.len()))?;
    out.shown(&shorter)?;
    out.octets(output.as_slice())
}

/// Fails unless the run whose read with this number fails has that fault and writes nothing.
fn check_read(given: &Given, call: usize) -> Result<(), RowError> {
    let mut output = Vec::new(given.alloc);
    let mut source = StepSource::new(given.input.as_slice(), Some(call));
    match given.run(&mut source, &mut output)? {
        Some(Fault::Read) if output.is_empty() => Ok(()),
        _ => Err(RowError::BadWord),
    }
}

/// Fails unless the run whose writes fail after `left` octets has that fault, and writes the first `left` octets of the
/// output.
fn check_write(
    given: &Given,
    output: &[u8],
    left: usize,
    ending: Option<ErrorKind>,
) -> Result<(), RowError> {
    let mut writer = Failing {
        written: Vec::with_capacity(given.alloc, left)?,
        left,
        ending,
    };
    let fault = given.run(&mut StdSource::new(given.input.as_slice()), &mut writer)?;
    if fault == Some(Fault::Write) && output.get(..left) == Some(writer.written.as_slice()) {
        Ok(())
    } else {
        Err(RowError::BadWord)
    }
}

/// Returns how many shorter beginnings of the input have an output. Fails if one has a fault and writes something.
fn shorter_inputs(given: &Given) -> Result<u32, RowError> {
    let mut count = 0u32;
    for len in 0..given.input.len() {
        let mut output = Vec::new(given.alloc);
        let input = given.input.get(..len).unwrap_or_default();
        match given.run(&mut StdSource::new(input), &mut output)? {
            None => count = count.saturating_add(1),
            Some(Fault::Write) => return Err(RowError::OutOfMemory),
            Some(_) if output.is_empty() => {}
            Some(_) => return Err(RowError::BadWord),
        }
    }
    Ok(count)
}
