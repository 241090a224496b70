//! Labels that are changed in place.
ghost use Rattle.std.specs.Prelude.{◌≡◌, ◌≤◌, ◌↔◌, length, IsOk, IfOk, IfErr};
ghost use Rattle.dns_label.specs.Label.{label_octets};
ghost use Rattle.dns_label.specs.Composed.{low_label};
ghost use Rattle.dns_label.specs.Split.{NoLabel, StartsWithLabel};

use super::{Label, LongLabelError, SplitLabelError};

/// A label of a domain name that is changed in place: at most 63 octets (RFC 1035, section 3.1). Their number never
/// changes.
#[derive(Debug, Drop)]
pub struct LabelMut<'a> {
    octets: &'a mut [u8],
    pub ghost short: { length octets.now ≤ 63 },
}

impl<'a> LabelMut<'a> {
    ghost use Rattle.dns_label.specs.LabelMut.{octets_lent, loan_of};

    /// Returns the label of these octets. Fails exactly if they are more than 63.
    ///
    /// It keeps the reference to them: what the label is when the loan ends is what the octets then are.
    pub fn from_slice(octets: &'a mut [u8]) -> Result<Self, LongLabelError>
        ensures ok { IfOk result (λ label. octets_lent label ≡ octets.old) }
        ensures same { IfOk result (λ label. loan_of label ≡ octets.entry.ghost_name) }
        ensures short { IsOk result ↔ (length octets.old ≤ 63) }
    {
        if octets.len() > 63 {
            return Err(LongLabelError);
        }
        Ok(LabelMut::of_short(octets))
    }

    /// Returns the label of these octets, which must be at most 63. What the label is when the loan ends is what the
    /// octets then are.
    pub fn of_short(octets: &'a mut [u8]) -> Self
        requires { length octets.old ≤ 63 }
        ensures octets { octets_lent result ≡ octets.old }
        ensures same { loan_of result ≡ octets.entry.ghost_name }
    {
        LabelMut { octets }
    }

    /// Splits a label off the front of the octets: a length, and that number of octets. Returns the label and the
    /// octets after it.
    ///
    /// Fails if the octets begin with a pointer or with a length of another type, or end early (RFC 1035, section
    /// 4.1.4).
    pub fn split_from(octets: &'a mut [u8]) -> Result<(Self, &'a mut [u8]), SplitLabelError>
        ensures ok { IfOk result (λ found. StartsWithLabel octets.old (octets_lent found.0) found.1.now) }
        ensures err { IfErr result (NoLabel octets.old) }
    {
        let len = match Label::split_from(octets) {
            Ok((label, _)) => label.len(),
            Err(error) => return Err(error),
        };
        let (_, behind) = octets.split_at_mut(1);
        let (label, rest) = behind.split_at_mut(len);
        Ok((LabelMut::of_short(label), rest))
    }

    /// Returns the octets, without the length octet.
    pub fn as_slice(&self) -> &[u8]
        ensures { result.now ≡ octets_lent self.now }
    {
        &*self.octets
    }

    /// Returns the label as it is now.
    pub fn as_label(&self) -> Label<'_>
        ensures { label_octets result ≡ octets_lent self.now }
    {
        Label {
            octets: self.octets,
        }
    }

    /// Puts the ASCII letters into lower case (RFC 4034, section 6.2).
    pub fn make_canonical(&mut self)
        ensures lower { octets_lent self.new ≡ low_label (octets_lent self.old) }
        ensures same { loan_of self.new ≡ loan_of self.old }
    {
        self.octets.make_ascii_lowercase();
    }
}
