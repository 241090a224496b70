//! A job has one output for an input, or one fault.

ghost use Rattle.std.specs.Prelude.{◌≡◌, ◌≢◌, ℕ, List};
ghost use Rattle.zonewire.specs.Output.{IsJobFault, IsOutput};
ghost use Rattle.zonewire.specs.declared.fault.Fault.{Fault};
ghost use Rattle.zonewire.specs.declared.fault.Fault.TheVariants as fault;
ghost use Rattle.zonewire_words.specs.declared.jobs.Job.{Job};

/// A job has at most one output for an input, octet for octet, and at most one fault other than `OutOfMemory`, and never
/// both.
pub fn one_output_or_fault()
    ensures one_output { (job : Job) (input output other : List ℕ) → IsOutput job input output → IsOutput job input other → output ≡ other }
    ensures not_both { (job : Job) (input output : List ℕ) (error : Fault) → error ≢ fault.OutOfMemory →
        IsOutput job input output → IsJobFault job input error → ⊥ }
    ensures one_fault { (job : Job) (input : List ℕ) (e d : Fault) → e ≢ fault.OutOfMemory → d ≢ fault.OutOfMemory →
        IsJobFault job input e → IsJobFault job input d → e ≡ d }
{}
