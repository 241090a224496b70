//! The general form of data (RFC 3597 5).
ghost use Rattle.std.specs.Prelude.{◌≡◌, ◌++◌, OnOk};
ghost use Rattle.dns_label.specs.Octets.{AreOctets};
ghost use Rattle.dns_name.specs.UnknownText.{unknown_text};

use dns_text::base16;
use itoa::Buffer;
use std::alloc::AllocError;

/// Appends the general form of data with these octets: `\#`, their number, and if there are any, these in base 16.
///
/// Fails if out of memory. It may then have appended a part of the form.
#[tactic(auto, using(crate::proofs::GeneralForm::form_none))]
pub(crate) fn append_general_form(octets: &[u8], text: &mut Vec<u8>) -> Result<(), AllocError>
    ensures text { OnOk result (text.new.items ≡ text.old.items ++ unknown_text octets.now) }
    ensures octets { AreOctets octets.now }
{
    text.extend_from_slice(b"\\# ")?;
    text.extend_from_slice(Buffer::new().format(octets.len()).as_bytes())?;
    if octets.is_empty() {
        return Ok(());
    }
    text.push(b' ')?;
    base16::append(octets, text)
}
