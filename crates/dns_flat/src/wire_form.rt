//! The octets of names of any kind, one label after another.
ghost use Rattle.std.specs.Prelude.{◌≡◌, length, map};
ghost use Rattle.std.specs.Char.{to_ascii_lowercase};
ghost use Rattle.dns_label.specs.Name.{IsName, labels_wire, wire, low};
ghost use Rattle.dns_flat.specs.FlatWire.{octets_in};

use crate::{ToName, ToRelativeName};
use arrayvec::ArrayVec;
use dns_wire::ToLabelIter;

/// The octets of an absolute name: borrowed if they are flat in memory already, and else written out.
#[derive(Drop)]
pub enum FlatWire<'a> {
    Lent(&'a [u8]),
    Written(ArrayVec<u8, 255>),
}

impl FlatWire<'_> {
    /// Returns the octets.
    pub fn as_slice(&self) -> &[u8]
        ensures { result.now ≡ octets_in self.now }
    {
        match self {
            FlatWire::Lent(octets) => octets,
            FlatWire::Written(octets) => octets.as_slice(),
        }
    }
}

/// Returns the octets of the name.
pub fn wire_of<N: ToName>(name: &N) -> FlatWire<'_>
    ensures octets { octets_in result ≡ wire (N.name name.now) }
    ensures name { IsName (N.name name.now) }
{
    match name.as_flat_slice() {
        Some(octets) => FlatWire::Lent(octets),
        None => FlatWire::Written(flat_octets(name)),
    }
}

/// Returns the octets of the name in lower case.
pub fn lowered_wire_of<N: ToName>(name: &N) -> ArrayVec<u8, 255>
    ensures octets { result.items ≡ wire (low (N.name name.now)) }
    ensures name { IsName (low (N.name name.now)) }
    ensures long { length result.items ≡ length (wire (N.name name.now)) }
{
    let _flat = name.as_flat_slice();
    let mut octets = flat_octets(name);
    octets.as_mut_slice().make_ascii_lowercase();
    octets
}

/// Returns the octets of the labels, each after its length.
pub fn flat_octets<N: ToLabelIter>(name: &N) -> ArrayVec<u8, 255>
    ensures { result.items ≡ labels_wire (N.labels name.now) }
{
    let mut octets = ArrayVec::new();
    for label in name.iter_labels() {
        octets.push(label.len() as u8);
        if octets.try_extend_from_slice(label.as_slice()).is_err() {
            unreachable!();
        }
    }
    octets
}

/// Returns the octets of the relative name.
pub fn labels_of<N: ToRelativeName>(name: &N) -> FlatWire<'_>
    ensures octets { octets_in result ≡ labels_wire (N.labels name.now) }
    ensures name { IsName (N.labels name.now) }
{
    match name.as_flat_slice() {
        Some(octets) => FlatWire::Lent(octets),
        None => FlatWire::Written(flat_octets(name)),
    }
}

/// Returns the octets of the relative name in lower case.
pub fn lowered_labels_of<N: ToRelativeName>(name: &N) -> ArrayVec<u8, 255>
    ensures octets { result.items ≡ labels_wire (low (N.labels name.now)) }
    ensures name { IsName (low (N.labels name.now)) }
    ensures long { length result.items ≡ length (labels_wire (N.labels name.now)) }
{
    let _flat = name.as_flat_slice();
    let mut octets = flat_octets(name);
    octets.as_mut_slice().make_ascii_lowercase();
    octets
}
