//! Options of an OPT record, whose octets a closure appends (RFC 6891 6.1.2).
ghost use Rattle.std.specs.Prelude.{◌≡◌, ◌⊎◌, ◌+◌, ◌++◌, Some, Err, OnOk, IfOk, IfErr, IfSome};
ghost use Rattle.std.specs.Int.{to_be_bytes, w16};
ghost use Rattle.dns_builder.specs.OptOption.{OnlyGrows, OnlyAppends, AddsOption, RefusesOption};

use super::OptBuilder;
use dns_name::{AppendError, Composer, OptionCode};

impl<Target: Composer> OptBuilder<Target> {
    ghost use Rattle.dns_builder.specs.OptSeen.{opt_in, target_of, rdlen_of, LeavesMessage};

    /// Appends an option with this code. The closure appends its octets to the target: as many as `option_len`. It must
    /// do nothing else.
    ///
    /// A call that fails leaves the options as they are, and every later such call fails with the same error. Fails
    /// with `BadLength` if the options would be more than 65,535 octets or the closure appends another number of octets
    /// than stated, with `ShortBuf` only if the target is too full, with `OutOfMemory` if out of memory, and with the
    /// closure's error.
    pub fn push_raw_option<F>(
        &mut self,
        code: OptionCode,
        option_len: u16,
        op: F,
    ) -> Result<(), AppendError>
    where
        F: FnOnce(&mut Target) -> Result<(), AppendError>,
        requires callable { F.IsAlwaysCallable op }
        requires appends { OnlyAppends F.FnOnce Target.list op Target.known Target.bound Target.stays }
        ensures ok { OnOk result (AddsOption F.FnOnce Target.list op (Target.list (target_of self.old)) code option_len
            (opt_in Target.list self.old).options (opt_in Target.list self.new).options) }
        ensures others { OnOk result (opt_in Target.list self.new ≡ record (opt_in Target.list self.old) { options = (opt_in Target.list self.new).options }) }
        ensures err { IfErr result (λ error. opt_in Target.list self.new ≡ record (opt_in Target.list self.old) { refused = Some error }) }
        ensures why { IfErr result (λ error. ((opt_in Target.list self.old).refused ≡ Some error)
            ⊎ RefusesOption F.FnOnce Target.list op (Target.list (target_of self.old)) (Target.bound (target_of self.old))
            (rdlen_of self.old) code option_len error) }
        ensures again { IfSome (opt_in Target.list self.old).refused (λ error. (result ≡ Err error) × (self.new ≡ self.old)) }
        ensures leaves { LeavesMessage Target.list Target.known Target.bound Target.stays self.old self.new }
    {
        if let Some(error) = self.refused {
            return Err(error);
        }
        let len = self.target.octets().len();
        match append_option(&mut self.target, self.rdlen, code, option_len, op) {
            Ok(rdlen) => {
                self.rdlen = rdlen;
                Ok(())
            }
            Err(error) => {
                self.target.truncate(len);
                self.refused = Some(error);
                Err(error)
            }
        }
    }
}

/// Appends an option after `rdlen` octets of options. Returns how many there are then. If the call fails, the target
/// may have more octets.
fn append_option<Target, F>(
    target: &mut Target,
    rdlen: u16,
    code: OptionCode,
    option_len: u16,
    op: F,
) -> Result<u16, AppendError>
where
    Target: Composer,
    F: FnOnce(&mut Target) -> Result<(), AppendError>,
    requires callable { F.IsAlwaysCallable op }
    requires appends { OnlyAppends F.FnOnce Target.list op Target.known Target.bound Target.stays }
    ensures ok { OnOk result (AddsOption F.FnOnce Target.list op (Target.list target.old) code option_len
        (Target.list target.old) (Target.list target.new)) }
    ensures rdlen { IfOk result (λ behind. behind ≡ rdlen + 4 + option_len) }
    ensures why { IfErr result (RefusesOption F.FnOnce Target.list op (Target.list target.old) (Target.bound target.old) rdlen code option_len) }
    ensures grows { OnlyGrows Target.list Target.known Target.bound Target.stays target.old target.new }
{
    let behind = usize::from(rdlen) + 4 + usize::from(option_len);
    if behind > 65535 {
        return Err(AppendError::BadLength);
    }
    target.append_slice(&head_octets(code, option_len))?;
    let start = target.octets().len();
    op(target)?;
    if target.octets().len() - start != usize::from(option_len) {
        return Err(AppendError::BadLength);
    }
    Ok(behind as u16)
}

/// Returns the octets before those of an option: its code and its length.
fn head_octets(code: OptionCode, option_len: u16) -> [u8; 4]
    ensures { result ≡ to_be_bytes w16 code ++ to_be_bytes w16 option_len }
{
    let [a, b] = code.to_int().to_be_bytes();
    let [c, d] = option_len.to_be_bytes();
    [a, b, c, d]
}
