//! Labels as octets on the wire (RFC 1035, section 3.1).
ghost use Rattle.std.specs.Prelude.{◌≡◌, ◌+◌, ◌++◌, Err, length, OnOk, OnErr};
ghost use Rattle.std.specs.Ordering.{nat_cmp};
ghost use Rattle.std.specs.Cmp.Lexicographic.{slice_cmp};
ghost use Rattle.dns_label.specs.Label.{label_octets};
ghost use Rattle.dns_label.specs.Composed.{label_wire, low_label};
ghost use Rattle.dns_octets.specs.Builder.{GrowsTo, IsWithin, IsPast};
ghost use Rattle.dns_octets.specs.declared.error.AppendError.TheVariants.{ShortBuf, BadLength};

use super::Label;
use arrayvec::ArrayVec;
use dns_octets::{AppendError, OctetsBuilder};
use std::cmp::Ordering;

impl Label<'_> {
    /// Appends the length octet and the octets, all or none, with the errors of
    /// `OctetsBuilder::append_slice`.
    pub fn compose<Target: OctetsBuilder>(&self, target: &mut Target) -> Result<(), AppendError>
        ensures ok { OnOk result (Target.list target.new ≡ Target.list target.old ++ label_wire (label_octets self.now)) }
        ensures err { OnErr result (Target.list target.new ≡ Target.list target.old) }
        ensures known { Target.known target.new ≡ Target.known target.old }
        ensures grows { GrowsTo (Target.list target.old) (Target.known target.old) (Target.list target.new) (Target.known target.new) }
        ensures short { result ≡ Err ShortBuf → IsPast (Target.bound target.old) (length (Target.list target.old ++ label_wire (label_octets self.now))) }
        ensures fits { OnOk result (IsWithin (Target.bound target.old) (length (Target.list target.new))) }
        ensures not_bad { result ≡ Err BadLength → ⊥ }
        ensures same_bound { Target.bound target.new ≡ Target.bound target.old }
        ensures stays { Target.stays target.old target.new }
    {
        target.append_slice(self.wire().as_slice())
    }

    /// Appends the length octet and the octets in lower case (RFC 4034, section 6.2), all or none,
    /// with the errors of `OctetsBuilder::append_slice`.
    pub fn compose_canonical<Target: OctetsBuilder>(
        &self,
        target: &mut Target,
    ) -> Result<(), AppendError>
        ensures ok { OnOk result (Target.list target.new ≡ Target.list target.old ++ label_wire (low_label (label_octets self.now))) }
        ensures err { OnErr result (Target.list target.new ≡ Target.list target.old) }
        ensures known { Target.known target.new ≡ Target.known target.old }
        ensures grows { GrowsTo (Target.list target.old) (Target.known target.old) (Target.list target.new) (Target.known target.new) }
        ensures short { result ≡ Err ShortBuf → IsPast (Target.bound target.old) (length (Target.list target.old ++ label_wire (low_label (label_octets self.now)))) }
        ensures fits { OnOk result (IsWithin (Target.bound target.old) (length (Target.list target.new))) }
        ensures not_bad { result ≡ Err BadLength → ⊥ }
        ensures same_bound { Target.bound target.new ≡ Target.bound target.old }
        ensures stays { Target.stays target.old target.new }
    {
        target.append_slice(self.low_wire().as_slice())
    }

    /// Returns the number of octets of the label on the wire, with its length octet.
    pub fn compose_len(&self) -> u16
        ensures { result ≡ length (label_wire (label_octets self.now)) }
    {
        self.len() as u16 + 1
    }

    /// Compares the octets on the wire, the length octet first.
    pub fn composed_cmp(&self, other: &Label<'_>) -> Ordering
        ensures { result ≡ slice_cmp nat_cmp (label_wire (label_octets self.now)) (label_wire (label_octets other.now)) }
    {
        self.wire().as_slice().cmp(other.wire().as_slice())
    }

    /// Compares the octets on the wire in lower case, the length octet first.
    pub fn lowercase_composed_cmp(&self, other: &Label<'_>) -> Ordering
        ensures { result ≡ slice_cmp nat_cmp (label_wire (low_label (label_octets self.now))) (label_wire (low_label (label_octets other.now))) }
    {
        self.low_wire().as_slice().cmp(other.low_wire().as_slice())
    }

    /// Returns the length octet and the octets.
    pub(crate) fn wire(&self) -> ArrayVec<u8, 64>
        ensures { result.items ≡ label_wire (label_octets self.now) }
    {
        let mut wire = ArrayVec::new();
        wire.push(self.len() as u8);
        if wire.try_extend_from_slice(self.as_slice()).is_err() {
            unreachable!();
        }
        wire
    }

    /// Returns the length octet and the octets in lower case.
    pub(crate) fn low_wire(&self) -> ArrayVec<u8, 64>
        ensures { result.items ≡ label_wire (low_label (label_octets self.now)) }
    {
        let mut wire = self.wire();
        wire.as_mut_slice().make_ascii_lowercase();
        wire
    }
}
