//! An OPT record that a closure builds.
ghost use Rattle.std.specs.Prelude.{◌≡◌, ◌≤◌, ◌+◌, ◌-◌, ◌++◌, [], ◌∷◌, None, Some, Err, true, length, take, IfOk, OnOk, IfErr, OnErr};
ghost use Rattle.std.specs.Int.{to_be_bytes, w16, w32};
ghost use Rattle.dns_octets.specs.Builder.{GrowsTo, IsPast, Standing};
ghost use Rattle.dns_octets.specs.declared.error.AppendError.TheVariants.{ShortBuf, BadLength};
ghost use Rattle.dns_header.specs.HeaderFields.{fields_of};
ghost use Rattle.dns_name.specs.RecordData.{page_of};
ghost use Rattle.dns_name.specs.Remembered.{IsKnown};
ghost use Rattle.dns_builder.specs.OptAsked.{WritesOpt, RefusesRecord, refusal};
ghost use Rattle.dns_builder.specs.OptBuilt.{empty_opt};
ghost use Rattle.dns_builder.specs.OptClosed.{WritesFields};
ghost use Rattle.dns_builder.specs.OptSeen.{opt_in, options_start, start_of, target_of, OnlyBuilds};

use super::OptBuilder;
use super::move_down::move_down;
use dns_header::{Header, OptHeader};
use dns_name::{AppendError, Class, Composer, Ttl};

impl<Target: Composer> OptBuilder<Target> {
    /// Appends an OPT record that the closure builds, all or nothing. Returns the header of the message with the
    /// record.
    pub(crate) fn append_opt<F>(&mut self, op: F) -> Result<Header, AppendError>
    where
        F: FnOnce(&mut OptBuilder<Target>) -> Result<(), AppendError>,
        requires header { 12 ≤ length (Target.list (target_of self.old)) }
        requires callable { F.IsAlwaysCallable op }
        requires builds { OnlyBuilds Target.list Target.known Target.bound Target.stays F.FnOnce op }
        ensures ok { IfOk result (λ header. WritesOpt F.FnOnce (opt_in Target.list) op Target.spelling
            (page_of (Target.list (target_of self.old)) (Target.known (target_of self.old))) header
            (page_of (Target.list (target_of self.new)) (Target.known (target_of self.new)))) }
        ensures err { OnErr result (page_of (Target.list (target_of self.new)) (Target.known (target_of self.new))
            ≡ page_of (Target.list (target_of self.old)) (Target.known (target_of self.old))) }
        ensures why { IfErr result (RefusesRecord F.FnOnce (opt_in Target.list) op (Target.list (target_of self.old)) (Target.bound (target_of self.old))) }
        ensures grows { GrowsTo (Target.list (target_of self.old)) (Target.known (target_of self.old))
            (Target.list (target_of self.new)) (Target.known (target_of self.new)) }
        ensures same_bound { Target.bound (target_of self.new) ≡ Target.bound (target_of self.old) }
        ensures stays { Target.stays (target_of self.old) (target_of self.new) }
    {
        let len = self.target.octets().len();
        match self.build_opt(op) {
            Ok(header) => Ok(header),
            Err(error) => {
                self.target.truncate(len);
                Err(error)
            }
        }
    }

    /// Appends an OPT record that the closure builds. If the call fails, the target may have more octets.
    fn build_opt<F>(&mut self, op: F) -> Result<Header, AppendError>
    where
        F: FnOnce(&mut OptBuilder<Target>) -> Result<(), AppendError>,
        requires header { 12 ≤ length (Target.list (target_of self.old)) }
        requires callable { F.IsAlwaysCallable op }
        requires builds { OnlyBuilds Target.list Target.known Target.bound Target.stays F.FnOnce op }
        ensures ok { IfOk result (λ header. WritesOpt F.FnOnce (opt_in Target.list) op Target.spelling
            (page_of (Target.list (target_of self.old)) (Target.known (target_of self.old))) header
            (page_of (Target.list (target_of self.new)) (Target.known (target_of self.new)))) }
        ensures why { IfErr result (RefusesRecord F.FnOnce (opt_in Target.list) op (Target.list (target_of self.old)) (Target.bound (target_of self.old))) }
        ensures grows { GrowsTo (Target.list (target_of self.old)) (Target.known (target_of self.old))
            (Target.list (target_of self.new)) (Target.known (target_of self.new)) }
        ensures same_bound { Target.bound (target_of self.new) ≡ Target.bound (target_of self.old) }
        ensures stays { Target.stays (target_of self.old) (target_of self.new) }
    {
        self.begin()?;
        let answered = op(self);
        self.close(answered)
    }

    /// Appends an OPT record with all fields zero and no options.
    fn begin(&mut self) -> Result<(), AppendError>
        requires header { 12 ≤ length (Target.list (target_of self.old)) }
        ensures ok { OnOk result (opt_in Target.list self.new ≡ empty_opt (take 4 (Target.list (target_of self.old)))) }
        ensures said { OnOk result (fields_of (opt_in Target.list self.new).header ≡ fields_of (Target.list (target_of self.old))) }
        ensures start { OnOk result (start_of Target.list self.new ≡ length (Target.list (target_of self.old)) + 11) }
        ensures octets { OnOk result (Target.list (target_of self.new)
            ≡ Target.list (target_of self.old) ++ 0 ∷ 0 ∷ 41 ∷ 0 ∷ 0 ∷ 0 ∷ 0 ∷ 0 ∷ 0 ∷ 0 ∷ 0 ∷ []) }
        ensures err { OnErr result (Target.list (target_of self.new) ≡ Target.list (target_of self.old)) }
        ensures short { result ≡ Err ShortBuf → IsPast (Target.bound (target_of self.old)) (length (Target.list (target_of self.old)) + 11) }
        ensures not_bad { result ≡ Err BadLength → ⊥ }
        ensures known { Target.known (target_of self.new) ≡ Target.known (target_of self.old) }
        ensures same_bound { Target.bound (target_of self.new) ≡ Target.bound (target_of self.old) }
        ensures stays { Target.stays (target_of self.old) (target_of self.new) }
    {
        let header = Header::for_message_slice(self.target.octets());
        self.target
            .append_slice(&[0, 0, 41, 0, 0, 0, 0, 0, 0, 0, 0])?;
        self.rdlen = 0;
        self.replaced = 0;
        self.header = header;
        self.fields = OptHeader::new();
        self.refused = None;
        Ok(())
    }

    /// Writes the fixed fields of the record, unless a call failed. Returns the header.
    fn close(&mut self, answered: Result<(), AppendError>) -> Result<Header, AppendError>
        requires behind { 8 ≤ start_of Target.list self.old }
        requires stops { (standing : Standing) → IsKnown standing (Target.known (target_of self.old)) → standing.stop ≤ start_of Target.list self.old - 8 }
        ensures header { IfOk result (λ header. header ≡ (opt_in Target.list self.old).header) }
        ensures unrefused { OnOk result (refusal (opt_in Target.list self.old).refused answered ≡ None) }
        ensures short { OnOk result (length (opt_in Target.list self.old).options ≤ 65535) }
        ensures written { OnOk result (WritesFields (start_of Target.list self.old) (opt_in Target.list self.old)
            (take (start_of Target.list self.old) (Target.list (target_of self.old)) ++ (opt_in Target.list self.old).options)
            (Target.list (target_of self.new))) }
        ensures err { OnErr result (Target.list (target_of self.new) ≡ Target.list (target_of self.old)) }
        ensures why { IfErr result (λ error. refusal (opt_in Target.list self.old).refused answered ≡ Some error) }
        ensures known { Target.known (target_of self.new) ≡ Target.known (target_of self.old) }
        ensures same_bound { Target.bound (target_of self.new) ≡ Target.bound (target_of self.old) }
        ensures stays { Target.stays (target_of self.old) (target_of self.new) }
    {
        if let Some(error) = self.refused {
            return Err(error);
        }
        answered?;
        self.drop_replaced();
        self.write_fields();
        Ok(self.header)
    }

    /// Moves the options down over those that they replaced.
    fn drop_replaced(&mut self)
        requires stops { (standing : Standing) → IsKnown standing (Target.known (target_of self.old)) → standing.stop ≤ start_of Target.list self.old - 8 }
        ensures octets { Target.list (target_of self.new)
            ≡ take (start_of Target.list self.old) (Target.list (target_of self.old)) ++ (opt_in Target.list self.old).options }
        ensures opt { opt_in Target.list self.new ≡ opt_in Target.list self.old }
        ensures start { start_of Target.list self.new ≡ start_of Target.list self.old }
        ensures known { Target.known (target_of self.new) ≡ Target.known (target_of self.old) }
        ensures same_bound { Target.bound (target_of self.new) ≡ Target.bound (target_of self.old) }
        ensures stays { Target.stays (target_of self.old) (target_of self.new) }
    {
        let from = self.options_start();
        let to = from.saturating_sub(self.replaced);
        if to < from {
            move_down(&mut self.target, from, to);
            self.replaced = 0;
        }
    }

    /// Returns where the options begin in the target.
    pub(super) fn options_start(&self) -> usize
        ensures { result ≡ options_start Target.list self.now }
    {
        let len = self.target.octets().len();
        len.saturating_sub(usize::from(self.rdlen))
    }

    /// Writes the class, the TTL and the length of the data, which is only the options.
    fn write_fields(&mut self)
        requires behind { 8 ≤ start_of Target.list self.old }
        requires alone { start_of Target.list self.old ≡ options_start Target.list self.old }
        requires stops { (standing : Standing) → IsKnown standing (Target.known (target_of self.old)) → standing.stop ≤ start_of Target.list self.old - 8 }
        ensures written { WritesFields (start_of Target.list self.old) (opt_in Target.list self.old) (Target.list (target_of self.old)) (Target.list (target_of self.new)) }
        ensures short { length (opt_in Target.list self.old).options ≤ 65535 }
        ensures header { (opt_in Target.list self.new).header ≡ (opt_in Target.list self.old).header }
        ensures known { Target.known (target_of self.new) ≡ Target.known (target_of self.old) }
        ensures same_bound { Target.bound (target_of self.new) ≡ Target.bound (target_of self.old) }
        ensures stays { Target.stays (target_of self.old) (target_of self.new) }
    {
        let head = head_octets(self.fields.class(), self.fields.ttl(), self.rdlen);
        let start = self.options_start();
        self.target.patch(start - 8, &head);
    }
}

/// Returns the octets between the type and the data: the class, the TTL, and the length of the data.
fn head_octets(class: Class, ttl: Ttl, rdlen: u16) -> [u8; 8]
    ensures { result ≡ to_be_bytes w16 class ++ (to_be_bytes w32 ttl ++ to_be_bytes w16 rdlen) }
{
    let [a, b] = class.to_int().to_be_bytes();
    let [c, d, e, f] = ttl.as_secs().to_be_bytes();
    let [g, h] = rdlen.to_be_bytes();
    [a, b, c, d, e, f, g, h]
}
