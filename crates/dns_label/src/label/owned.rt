//! Labels that hold their octets.
ghost use Rattle.std.specs.Prelude.{◌≡◌, ◌≤◌, ◌+◌, length, slice_index, ⊤};
ghost use Rattle.dns_label.specs.Label.{label_octets};
ghost use Rattle.dns_label.specs.Composed.{label_wire, low_label};

mod order;
mod text;
mod view;

use super::Label;
use std::alloc::AllocError;
pub use text::LabelFromStrError;
pub use view::OwnedLabelMut;

/// A label of a domain name that holds its octets, at most 63 of them (RFC 1035, section 3.1). It allocates nothing.
pub struct OwnedLabel {
    /// The length, the octets of the label, and after them octets without a meaning.
    wire: [u8; 64],
    pub ghost whole: { length wire ≡ 64 },
    pub ghost short: { slice_index wire 0 ≤ 63 },
}

impl Clone for OwnedLabel {
    ghost use Rattle.dns_label.specs.OwnedLabel.{octets_owned};

    ghost is_clone = { λ label copy. octets_owned copy ≡ octets_owned label };

    ghost is_infallible = { λ _. ⊤ };

    fn clone(&self) -> Result<Self, AllocError> {
        Ok(*self)
    }
}

impl Copy for OwnedLabel {}

impl OwnedLabel {
    ghost use Rattle.dns_label.specs.OwnedLabel.{octets_owned};

    /// Returns a label that holds a copy of the octets.
    pub fn from_label(label: Label<'_>) -> Self
        ensures { octets_owned result ≡ label_octets label.entry }
    {
        let mut wire = [0; 64];
        let len = label.len();
        wire[0] = len as u8;
        wire[1..len + 1].copy_from_slice(label.as_slice());
        OwnedLabel { wire }
    }

    /// Returns a view of the label.
    pub fn as_label(&self) -> Label<'_>
        ensures { label_octets result ≡ octets_owned self.now }
    {
        let octets = &self.wire[1..self.wire_len()];
        Label { octets }
    }

    /// Returns the length octet and the octets.
    pub fn as_wire_slice(&self) -> &[u8]
        ensures { result.now ≡ label_wire (octets_owned self.now) }
    {
        &self.wire[..self.wire_len()]
    }

    /// Puts the ASCII letters into lower case (RFC 4034, section 6.2).
    pub fn make_canonical(&mut self)
        ensures { octets_owned self.new ≡ low_label (octets_owned self.old) }
    {
        let len = self.wire_len();
        self.wire[1..len].make_ascii_lowercase();
    }

    /// Returns the number of octets of the label on the wire, with its length octet.
    fn wire_len(&self) -> usize
        ensures { result ≡ 1 + length (octets_owned self.now) }
    {
        usize::from(self.wire[0]) + 1
    }
}
