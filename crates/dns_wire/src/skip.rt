//! Skipping a name in a message without reading it (RFC 1035, section 4.1.4).
ghost use Rattle.std.specs.Prelude.{◌≡◌, ◌≤◌, ◌↔◌, ℕ, length, IfOk, IfErr, OnErr};
ghost use Rattle.dns_octets.specs.declared.error.ParseError.TheVariants.{ShortInput};
ghost use Rattle.dns_wire.specs.Cut.{IsCut};
ghost use Rattle.dns_wire.specs.Skip.{Skips};

use crate::walk::label_at;
use dns_label::SplitLabelError;
use dns_octets::ParseError;

/// Returns the place after the labels at `start` and what ends them: the root, or a pointer, which is not followed.
///
/// Fails if there are none, or more than 254 octets of labels; and with `ShortInput` exactly if the message ends after
/// at most 254 octets of labels.
pub fn skip_name(octets: &[u8], start: usize) -> Result<usize, ParseError>
    requires { start ≤ length octets.now }
    ensures ok { IfOk result (λ next. Skips octets.now 254 start next) }
    ensures err { OnErr result ((next : ℕ) → Skips octets.now 254 start next → ⊥) }
    ensures short { IfErr result (λ error. (error ≡ ShortInput) ↔ IsCut octets.now 0 254 start) }
    ensures within { IfOk result (λ next. next ≤ length octets.now) }
{
    let mut place = start;
    let mut room = 254usize;
    loop {
        match label_at(octets, place) {
            Ok((label, _)) => {
                let count = label.len() + 1;
                if label.is_root() {
                    return Ok(place + 1);
                }
                if count > room {
                    return Err(ParseError::form_error("long domain name"));
                }
                room -= count;
                place += count;
            }
            Err(SplitLabelError::Pointer(_)) => return Ok(place + 2),
            Err(SplitLabelError::BadType(_)) => return Err(ParseError::form_error(
                "bad label type",
            )),
            Err(SplitLabelError::ShortInput) => return Err(ParseError::ShortInput),
        }
    }
}
