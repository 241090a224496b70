//! Walking over the heads of a name in a message (RFC 1035, section 4.1.4).
ghost use Rattle.std.specs.Prelude.{◌≡◌, ◌≤◌, ◌+◌, ◌↔◌, ◌∷◌, List, ℕ, length, drop, IfOk, IfErr, OnErr};
ghost use Rattle.dns_label.specs.Label.{label_octets};
ghost use Rattle.dns_label.specs.Labels.{labels_at};
ghost use Rattle.dns_label.specs.Name.{wire, with_root};
ghost use Rattle.dns_label.specs.Spelled.{DecodesName};
ghost use Rattle.dns_label.specs.Split.{NoLabel, StartsWithLabel};
ghost use Rattle.dns_octets.specs.declared.error.ParseError.TheVariants.{ShortInput};
ghost use Rattle.dns_wire.specs.Cut.{IsCut};
ghost use Rattle.dns_wire.specs.Parsed.{IsReadAt, IsLeft, labels_left};

use dns_label::{Label, SplitLabelError};
use dns_octets::ParseError;

/// What a walk over a name found.
#[derive(Clone, Copy)]
pub struct Walk {
    /// The number of octets of the name on the wire, with the root's.
    pub len: u16,
    /// The place after the name: after its root, or after its first pointer.
    pub next: usize,
}

/// Walks over the heads of the name at a place.
///
/// Fails if no name is read there, and with `ShortInput` exactly if the message ends after at most 254 octets of
/// labels.
pub fn walk_name(octets: &[u8], start: usize) -> Result<Walk, ParseError>
    requires { start ≤ length octets.now }
    ensures ok { IfOk result (λ walk. (name : List (List ℕ)) × DecodesName octets.now start name walk.next × (walk.len ≡ length (wire name))) }
    ensures err { OnErr result ((name : List (List ℕ)) (next : ℕ) → DecodesName octets.now start name next → ⊥) }
    ensures short { IfErr result (λ error. (error ≡ ShortInput) ↔ IsCut octets.now 255 254 start) }
{
    let mut place = start;
    let mut len = 0u16;
    let mut left = 255u8;
    let mut behind = None;
    loop {
        match label_at(octets, place) {
            Ok((label, _)) => {
                if label.is_root() {
                    let next = behind.unwrap_or(place + 1);
                    return Ok(Walk { len: len + 1, next });
                }
                let count = label.len() as u16 + 1;
                if len + count > 254 {
                    return Err(ParseError::form_error("long domain name"));
                }
                len += count;
                place += usize::from(count);
            }
            Err(SplitLabelError::Pointer(target)) => {
                let target = usize::from(target);
                if target >= place {
                    return Err(ParseError::form_error("forward pointer"));
                }
                if left == 0 {
                    return Err(ParseError::form_error("too many pointers"));
                }
                left -= 1;
                behind = Some(behind.unwrap_or(place + 2));
                place = target;
            }
            Err(SplitLabelError::BadType(_)) => return Err(ParseError::form_error(
                "bad label type",
            )),
            Err(SplitLabelError::ShortInput) => return Err(ParseError::ShortInput),
        }
    }
}

/// Returns the label at a place, and the octets after it. Fails if there is no label.
pub fn label_at(octets: &[u8], place: usize) -> Result<(Label<'_>, &[u8]), SplitLabelError>
    requires { place ≤ length octets.now }
    ensures ok { IfOk result (λ found. StartsWithLabel (drop place octets.now) (label_octets found.0) found.1.now) }
    ensures err { IfErr result (NoLabel (drop place octets.now)) }
{
    Label::split_from(&octets[place..])
}

/// Returns the label at the place, with pointers followed, and the place of the next one: `None` after the root's.
pub fn split_label(octets: &[u8], start: usize) -> (Label<'_>, Option<usize>)
    requires { ∥ IsReadAt octets.now start ∥₁ }
    ensures left { IsLeft octets.now result.1 }
    ensures labels { with_root (labels_at octets.now start) ≡ label_octets result.0 ∷ labels_left octets.now result.1 }
{
    let mut place = start;
    loop {
        match label_at(octets, place) {
            Ok((label, _)) => {
                let next = place + 1 + label.len();
                return (label, if label.is_root() { None } else { Some(next) });
            }
            Err(SplitLabelError::Pointer(target)) => place = usize::from(target),
            Err(SplitLabelError::BadType(_)) => unreachable!(),
            Err(SplitLabelError::ShortInput) => unreachable!(),
        }
    }
}
