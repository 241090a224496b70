//! Names, and what octets begin with, in lower case and label by label.
ghost use Rattle.std.specs.Prelude.{◌≡◌, ◌++◌, IfOk, IfErr};
ghost use Rattle.dns_label.specs.Composed.{label_wire, low_label};
ghost use Rattle.dns_label.specs.Label.{label_octets};
ghost use Rattle.dns_label.specs.Name.{wire, low};
ghost use Rattle.dns_fields.specs.Prefix.{Decides};

use super::FieldOctetsOrd;
use super::split::split_prefix;
use crate::{Compressible, Uncompressed};
use dns_name::{Label, OwnedLabel, ToName};
use std::cmp::Ordering;

impl<N: ToName> FieldOctetsOrd for Compressible<N> {
    fn split_canonical_field<'a>(&self, octets: &'a [u8]) -> Result<&'a [u8], Ordering> {
        split_name(&self.0, octets)
    }
}

impl<N: ToName> FieldOctetsOrd for Uncompressed<N> {
    fn split_canonical_field<'a>(&self, octets: &'a [u8]) -> Result<&'a [u8], Ordering> {
        split_name(&self.0, octets)
    }
}

/// `split_prefix` of the name's octets in lower case.
fn split_name<'a, N: ToName>(name: &N, octets: &'a [u8]) -> Result<&'a [u8], Ordering>
    ensures ok { IfOk result (λ behind. octets.now ≡ wire (low (N.name name.now)) ++ behind.now) }
    ensures err { IfErr result (Decides (wire (low (N.name name.now))) octets.now) }
{
    let mut rest = octets;
    for label in name.iter_labels() {
        rest = split_label(label, rest)?;
    }
    Ok(rest)
}

/// `split_prefix` of the label's octets in lower case, after their length.
fn split_label<'a>(label: Label<'_>, octets: &'a [u8]) -> Result<&'a [u8], Ordering>
    ensures ok { IfOk result (λ behind. octets.now ≡ label_wire (low_label (label_octets label.entry)) ++ behind.now) }
    ensures err { IfErr result (Decides (label_wire (low_label (label_octets label.entry))) octets.now) }
{
    let mut lowered = OwnedLabel::from_label(label);
    lowered.make_canonical();
    split_prefix(lowered.as_wire_slice(), octets)
}
