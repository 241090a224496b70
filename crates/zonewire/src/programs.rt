//! The program: a run of the job that its words name.
ghost use Rattle.std.specs.Prelude.{◌≡◌, ◌≢◌, ◌↔◌, ℕ, List, false, Err, IfSome, IsTrue};
ghost use Rattle.std.specs.Io.KnownBytes.{Appends, IsAtEnd};
ghost use Rattle.zonewire.specs.Output.{IsJobFault, IsOutput};
ghost use Rattle.zonewire.specs.Program.{AreRead, IfFailed, IfRefused, NameJob, OnDone, status_of};
ghost use Rattle.zonewire.specs.Stream.{AppendsBeginning};
ghost use Rattle.zonewire.specs.declared.fault.Fault.TheVariants as fault;

use crate::fault::Fault;
use crate::runs::run;
use crate::sink::Sink;
use crate::source::Source;
use std::alloc::Global;
use zonewire_words::{WordsFault, job};

/// How the program ends.
#[derive(Debug, Drop)]
pub enum Ending {
    /// The job was done, and its whole output was written.
    Done,
    /// The job failed.
    Failed(Fault),
    /// The words name no job.
    Refused(WordsFault),
}

impl Ending {
    /// Returns the exit status: 0 if the job was done, 1 if it failed, 2 if the words name none.
    pub fn status(&self) -> u8
        ensures { result ≡ status_of self.now }
    {
        match self {
            Ending::Done => 0,
            Ending::Failed(_) => 1,
            Ending::Refused(_) => 2,
        }
    }
}

/// Runs the job that the words of a command line name, as `run` does. The first word is the program's name.
///
/// Returns `Refused` if `job` fails on the words, and then reads and writes nothing. Returns `Failed` if `run` fails.
pub fn program<R: Source, W: Sink>(
    alloc: Global,
    words: &[&str],
    source: &mut R,
    sink: &mut W,
) -> Ending
    // `Done`: the words name a job, and its output for all the input was written.
    ensures done { OnDone result (NameJob words.now (λ job. IfSome (R.remaining source.old) (λ input.
        (output : List ℕ) × IsOutput job input output × Appends (W.written sink.old) (W.written sink.new) output))) }
    ensures ended { OnDone result (IsAtEnd (R.remaining source.new)) }

    // `Failed`: the words name a job. Unless a read or a write fails, the fault is the job's own for all the input.
    // Nothing is written unless a write fails, and then a front of the output.
    ensures faults { IfFailed result (λ error. NameJob words.now (λ job. error ≢ fault.Read → error ≢ fault.Write →
        IfSome (R.remaining source.old) (λ input. IsJobFault job input error))) }
    ensures drained { IfFailed result (λ error. error ≢ fault.Read → error ≢ fault.OutOfMemory → IsAtEnd (R.remaining source.new)) }
    ensures silent { IfFailed result (λ error. error ≢ fault.Write → sink.new ≡ sink.old) }
    ensures part { IfFailed result (λ error. NameJob words.now (λ job. error ≡ fault.Write → IfSome (R.remaining source.old) (λ input.
        (output : List ℕ) × IsOutput job input output × AppendsBeginning (W.written sink.old) (W.written sink.new) output))) }

    // `Refused`: the words name no job for this reason, and nothing is read or written.
    ensures refused { IfRefused result (λ error. AreRead words.now (Err error)) }
    ensures untouched { IfRefused result (λ _. (source.new ≡ source.old) × (sink.new ≡ sink.old)) }

    // `Read` exactly if the source fails, and `Write` exactly if the sink fails, provided it had not failed before.
    ensures read { R.failed source.old ≡ false → ((result ≡ Ending.Failed fault.Read) ↔ IsTrue (R.failed source.new)) }
    ensures write { W.failed sink.old ≡ false → ((result ≡ Ending.Failed fault.Write) ↔ IsTrue (W.failed sink.new)) }
{
    let job = match job(alloc, words) {
        Ok(job) => job,
        Err(fault) => return Ending::Refused(fault),
    };
    match run(alloc, source, sink, job) {
        Ok(()) => Ending::Done,
        Err(fault) => Ending::Failed(fault),
    }
}
