//! Replacing the OPT record that is built with another one (RFC 6891 6.1).
ghost use Rattle.std.specs.Prelude.{◌≡◌, ◌⊎◌, Some, Err, length, OnOk, IfErr, IfSome};
ghost use Rattle.dns_header.specs.Opt.{options_octets};
ghost use Rattle.dns_builder.specs.OptReplaced.{RefusesOctets};

use super::OptBuilder;
use dns_header::OptRecord;
use dns_name::{AppendError, Composer, Octets};

impl<Target: Composer> OptBuilder<Target> {
    ghost use Rattle.dns_builder.specs.OptSeen.{opt_in, target_of, LeavesMessage};

    /// Replaces the fixed fields and the options with those of another OPT record. The response code of the message
    /// then has the high eight bits of that record, and keeps its low four.
    ///
    /// A call that fails leaves the record as it is, and every later call that adds options fails with the same error.
    /// The replaced options take room until the record is finished: fails with `ShortBuf` only if the target is too
    /// full for them and the new ones, and with `OutOfMemory` if out of memory.
    pub fn clone_from<Octs: Octets>(&mut self, source: &OptRecord<Octs>) -> Result<(), AppendError>
        ensures ok { OnOk result (opt_in Target.list self.new ≡ record (opt_in Target.list self.old) {
          fields = source.now.fields;
          options = options_octets source.now.options;
        }) }
        ensures err { IfErr result (λ error. opt_in Target.list self.new ≡ record (opt_in Target.list self.old) { refused = Some error }) }
        ensures why { IfErr result (λ error. ((opt_in Target.list self.old).refused ≡ Some error)
            ⊎ RefusesOctets (Target.list (target_of self.old)) (Target.bound (target_of self.old))
            (length (options_octets source.now.options)) error) }
        ensures again { IfSome (opt_in Target.list self.old).refused (λ error. (result ≡ Err error) × (self.new ≡ self.old)) }
        ensures leaves { LeavesMessage Target.list Target.known Target.bound Target.stays self.old self.new }
    {
        if let Some(error) = self.refused {
            return Err(error);
        }
        let options = source.opt().as_slice();
        let start = self.options_start().saturating_sub(self.replaced);
        let end = self.target.octets().len();
        if let Err(error) = self.target.append_slice(options) {
            self.refused = Some(error);
            return Err(error);
        }
        self.replaced = end - start;
        self.rdlen = options.len() as u16;
        self.fields = source.header();
        Ok(())
    }
}
