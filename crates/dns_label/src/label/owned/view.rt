//! Views by which labels that hold their octets are changed in place.
ghost use Rattle.std.specs.Prelude.{◌≡◌};
ghost use Rattle.dns_label.specs.Label.{label_octets};
ghost use Rattle.dns_label.specs.OwnedLabel.{octets_owned};
ghost use Rattle.dns_label.specs.Composed.{low_label};
ghost use Rattle.dns_label.specs.OwnedLabelMut.{octets_viewed, loan_viewed};

use super::OwnedLabel;
use crate::Label;

/// A view that changes the octets of a label that holds them, but not their number.
#[derive(Drop)]
pub struct OwnedLabelMut<'a> {
    label: &'a mut OwnedLabel,
}

impl OwnedLabel {
    /// Returns a view by which the octets are changed. What the view is when the loan ends is what
    /// the label then is.
    pub fn as_label_mut(&mut self) -> OwnedLabelMut<'_>
        ensures octets { octets_viewed result ≡ octets_owned self.old }
        ensures same { loan_viewed result ≡ self.entry.ghost_name }
    {
        OwnedLabelMut { label: self }
    }
}

impl OwnedLabelMut<'_> {
    /// Returns the label as it is now.
    pub fn as_label(&self) -> Label<'_>
        ensures { label_octets result ≡ octets_viewed self.now }
    {
        self.label.as_label()
    }

    /// Puts the ASCII letters into lower case (RFC 4034, section 6.2).
    pub fn make_canonical(&mut self)
        ensures lower { octets_viewed self.new ≡ low_label (octets_viewed self.old) }
        ensures same { loan_viewed self.new ≡ loan_viewed self.old }
    {
        self.label.make_canonical();
    }
}
