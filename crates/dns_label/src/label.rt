//! Labels, and how one is split off the front of octets.
ghost use Rattle.std.specs.Prelude.{◌≡◌, ◌+◌, ◌-◌, ◌*◌, ◌≤◌, ◌↔◌, [], ◌∷◌, length, IsTrue, IsOk, IfOk, IfErr, ⊤};
ghost use Rattle.dns_label.specs.declared.label.SplitLabelError.TheVariants.{BadType};

mod compose;
mod lent;
mod order;
mod owned;
mod print;
mod slice_labels;

pub use lent::LabelMut;
pub use owned::{LabelFromStrError, OwnedLabel, OwnedLabelMut};
pub use print::PlainLabelOctets;
pub use slice_labels::SliceLabelsIter;
use std::alloc::AllocError;
use thiserror::Error;

/// There are more octets than the 63 of a label (RFC 1035, section 2.3.4).
#[derive(Clone, Copy, Debug, PartialEq, Eq, Error)]
#[error("long label")]
pub struct LongLabelError;

/// The octet at the place of a label's length is of a type that no standard in use defines (RFC 1035, section 4.1.4).
#[derive(Clone, Copy, Debug, PartialEq, Eq, Error)]
pub enum LabelTypeError {
    /// Its top bits are 10.
    #[error("undefined label type")]
    Undefined,
    /// Its top bits are 01 (RFC 6891, section 5).
    #[error("unknown extended label type")]
    Extended,
}

/// Why no label is split off octets.
#[derive(Clone, Copy, Debug, PartialEq, Eq, Error)]
pub enum SplitLabelError {
    /// They begin with a pointer to this place.
    #[error("compressed domain name")]
    Pointer(u16),
    /// They begin with an octet that begins neither a label nor a pointer.
    #[error("{0}")]
    BadType(LabelTypeError),
    /// They end before the label or the pointer does.
    #[error("unexpected end of input")]
    ShortInput,
}

impl From<LabelTypeError> for SplitLabelError {
    ghost from_gives = { λ kind error. error ≡ BadType kind };

    fn from(kind: LabelTypeError) -> SplitLabelError {
        SplitLabelError::BadType(kind)
    }
}

/// A label of a domain name: at most 63 octets, and none in the root's label (RFC 1035, section 3.1).
#[derive(Debug)]
pub struct Label<'a> {
    octets: &'a [u8],
    pub ghost short: { length octets.now ≤ 63 },
}

impl Clone for Label<'_> {
    ghost use Rattle.dns_label.specs.Label.{label_octets};

    ghost is_clone = { λ label copy. label_octets copy ≡ label_octets label };

    ghost is_infallible = { λ _. ⊤ };

    fn clone(&self) -> Result<Self, AllocError> {
        Ok(*self)
    }
}

impl Copy for Label<'_> {}

impl<'a> Label<'a> {
    ghost use Rattle.dns_label.specs.Label.{label_octets};
    ghost use Rattle.dns_label.specs.Split.{NoLabel, StartsWithLabel};

    /// Returns the root's label, which has no octets.
    pub fn root() -> Label<'static>
        ensures { label_octets result ≡ [] }
    {
        Label { octets: &[] }
    }

    /// Returns the label `*` (RFC 4592, section 2.1.1).
    pub fn wildcard() -> Label<'static>
        ensures { label_octets result ≡ 42 ∷ [] }
    {
        Label { octets: b"*" }
    }

    /// Returns the label of these octets. Fails exactly if they are more than 63.
    pub fn from_slice(octets: &'a [u8]) -> Result<Self, LongLabelError>
        ensures ok { IfOk result (λ label. label_octets label ≡ octets.now) }
        ensures short { IsOk result ↔ (length octets.now ≤ 63) }
    {
        if octets.len() > 63 {
            return Err(LongLabelError);
        }
        Ok(Label { octets })
    }

    /// Splits a label off the front of the octets: a length, and that number of octets. Returns the label and the
    /// octets after it.
    ///
    /// Fails if the octets begin with a pointer or with a length of another type, or end early (RFC 1035, section
    /// 4.1.4).
    pub fn split_from(octets: &'a [u8]) -> Result<(Self, &'a [u8]), SplitLabelError>
        ensures ok { IfOk result (λ found. StartsWithLabel octets.now (label_octets found.0) found.1.now) }
        ensures err { IfErr result (NoLabel octets.now) }
    {
        let Some((&head, behind)) = octets.split_first() else {
            return Err(SplitLabelError::ShortInput);
        };
        match head {
            0..=63 => {
                let len = usize::from(head);
                if behind.len() < len {
                    return Err(SplitLabelError::ShortInput);
                }
                let (octets, rest) = behind.split_at(len);
                Ok((Label { octets }, rest))
            }
            64..=127 => Err(SplitLabelError::BadType(LabelTypeError::Extended)),
            128..=191 => Err(SplitLabelError::BadType(LabelTypeError::Undefined)),
            192..=255 => match behind.first() {
                Some(&low) => Err(SplitLabelError::Pointer(pointer_place(head, low))),
                None => Err(SplitLabelError::ShortInput),
            },
        }
    }

    /// Returns the octets, without the length octet.
    pub fn as_slice(&self) -> &'a [u8]
        ensures { result.now ≡ label_octets self.now }
    {
        self.octets
    }

    /// Returns the number of octets, without the length octet.
    pub fn len(&self) -> usize
        ensures { result ≡ length (label_octets self.now) }
    {
        self.octets.len()
    }

    /// Returns whether the label has no octets.
    pub fn is_empty(&self) -> bool
        ensures { IsTrue result ↔ (label_octets self.now ≡ []) }
    {
        self.is_root()
    }

    /// Returns whether this is the label `*` (RFC 4592, section 2.1.1).
    pub fn is_wildcard(&self) -> bool
        ensures { IsTrue result ↔ (label_octets self.now ≡ 42 ∷ []) }
    {
        matches!(self.octets, [b'*'])
    }

    /// Returns whether this is the root's label, which has no octets.
    pub fn is_root(&self) -> bool
        ensures { IsTrue result ↔ (label_octets self.now ≡ []) }
    {
        self.octets.is_empty()
    }
}

/// Returns the place that a pointer of these two octets gives.
fn pointer_place(first: u8, second: u8) -> u16
    requires { 192 ≤ first }
    ensures { result ≡ 256 * (first - 192) + second }
{
    256 * u16::from(first - 192) + u16::from(second)
}
