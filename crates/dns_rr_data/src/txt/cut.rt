//! Text as strings of 255 octets and a rest.
ghost use Rattle.std.specs.Prelude.{◌≡◌, ◌+◌, ◌<◌, ◌≤◌, ◌↔◌, ◌++◌, List, ℕ, [], length, take, drop, Err, IsTrue, IfOk, OnOk, OnErr};
ghost use Rattle.std.specs.List.{concat, flat_map};
ghost use Rattle.dns_text.specs.CharStr.{string_wire};
ghost use Rattle.dns_octets.specs.Builder.{IsPast};
ghost use Rattle.dns_octets.specs.declared.error.AppendError.TheVariants.{ShortBuf, BadLength};
ghost use Rattle.dns_rr_data.specs.Built.{AddsText, some_strings, text_len};
ghost use Rattle.dns_rr_data.specs.declared.txt.append_error.TxtAppendError.TheVariants.{LongRecordData};

use super::append_error::TxtAppendError;
use super::iter::TxtIter;
use dns_name::{AppendError, Compose, OctetsBuilder, Truncate, WriteOctets};
use dns_text::CharStr;

/// Whether this number of octets of text, as strings after other data, make more than 65,535 octets.
pub(super) fn is_long(len: usize, count: usize) -> bool
    requires { len ≤ 65535 }
    ensures { IsTrue result ↔ (65535 < len + text_len count) }
{
    count > 65_535 || len + count + count.div_ceil(255) > 65_535
}

/// Appends the strings of a text, and returns the place of the last one's length if that has fewer than 255 octets. If
/// one fails, those before it stay.
pub(super) fn append_strings<Builder: OctetsBuilder>(
    builder: &mut Builder,
    text: &[u8],
) -> Result<Option<usize>, AppendError>
    ensures ok { IfOk result (AddsText (Builder.list builder.old) text.now (Builder.list builder.new)) }
    ensures kept { take (length (Builder.list builder.old)) (Builder.list builder.new) ≡ Builder.list builder.old }
{
    let mut rest = text;
    while rest.len() >= 255 {
        let (string, behind) = rest.split_at(255);
        append_string(builder, string)?;
        rest = behind;
    }
    if rest.is_empty() {
        return Ok(None);
    }
    let place = builder.octets().len();
    append_string(builder, rest)?;
    Ok(Some(place))
}

/// Appends a string after its length, all or nothing.
fn append_string<Builder: OctetsBuilder>(
    builder: &mut Builder,
    octets: &[u8],
) -> Result<(), AppendError>
    requires { length octets.now ≤ 255 }
    ensures ok { OnOk result (Builder.list builder.new ≡ Builder.list builder.old ++ string_wire octets.now) }
    ensures err { OnErr result (Builder.list builder.new ≡ Builder.list builder.old) }
{
    let Ok(string) = CharStr::from_slice(octets) else {
        unreachable!()
    };
    string.compose(builder)
}

/// Appends the octets of strings, joined, or some of them if one string fails.
pub(super) fn append_joined<Builder: OctetsBuilder>(
    builder: &mut Builder,
    strings: TxtIter<'_>,
) -> Result<(), AppendError>
    ensures ok { OnOk result (Builder.list builder.new ≡ Builder.list builder.old ++ concat strings.entry) }
    ensures short { result ≡ Err ShortBuf → IsPast (Builder.bound builder.old) (length (Builder.list builder.old ++ concat strings.entry)) }
    ensures not_bad { result ≡ Err BadLength → ⊥ }
{
    let mut rest = strings;
    while let Some(string) = rest.next() {
        builder.append_slice(string)?;
    }
    Ok(())
}

/// Appends an empty string if there are no octets.
pub(super) fn fill<Builder: OctetsBuilder>(builder: &mut Builder) -> Result<(), AppendError>
    ensures ok { OnOk result ((each : List (List ℕ)) → Builder.list builder.old ≡ flat_map string_wire each
        → Builder.list builder.new ≡ flat_map string_wire (some_strings each)) }
    ensures none { OnErr result (Builder.list builder.old ≡ []) }
{
    if !builder.octets().is_empty() {
        return Ok(());
    }
    builder.append_slice(&[0])
}

/// Begins strings with a text, all or nothing. Returns the place of the open one's length, if one is open then.
///
/// Fails with `LongRecordData` exactly if there would be more than 65,535 octets.
pub(super) fn begin_text<Builder: Truncate>(
    builder: &mut Builder,
    text: &[u8],
) -> Result<Option<usize>, TxtAppendError>
    requires few { length (Builder.list builder.old) ≤ 65535 }
    ensures ok { IfOk result (AddsText (Builder.list builder.old) text.now (Builder.list builder.new)) }
    ensures fits { OnOk result (length (Builder.list builder.new) ≤ 65535) }
    ensures err { OnErr result (Builder.list builder.new ≡ Builder.list builder.old) }
    ensures long { (result ≡ Err LongRecordData) ↔ (65535 < length (Builder.list builder.old) + text_len (length text.now)) }
{
    let len = builder.octets().len();
    if is_long(len, text.len()) {
        return Err(TxtAppendError::LongRecordData);
    }
    match append_strings(builder, text) {
        Ok(head) => Ok(head),
        Err(error) => {
            builder.truncate(len);
            Err(TxtAppendError::from(error))
        }
    }
}

/// Continues the open string, whose length is at a place, all or nothing. Returns the place of the open one's length, if
/// one is open then.
///
/// Fails with `LongRecordData` exactly if there would be more than 65,535 octets.
pub(super) fn continue_text<Builder: Truncate + WriteOctets>(
    builder: &mut Builder,
    place: usize,
    text: &[u8],
) -> Result<Option<usize>, TxtAppendError>
    requires begun { place + 1 < length (Builder.list builder.old) }
    requires short { length (Builder.list builder.old) ≤ place + 255 }
    requires few { length (Builder.list builder.old) ≤ 65535 }
    ensures ok { IfOk result (AddsText (take place (Builder.list builder.old))
        (drop (place + 1) (Builder.list builder.old) ++ text.now) (Builder.list builder.new)) }
    ensures fits { OnOk result (length (Builder.list builder.new) ≤ 65535) }
    ensures err { OnErr result (Builder.list builder.new ≡ Builder.list builder.old) }
    ensures long { (result ≡ Err LongRecordData) ↔ (65535 < place
        + text_len (length (drop (place + 1) (Builder.list builder.old) ++ text.now))) }
{
    let len = builder.octets().len();
    let count = len - place - 1;
    if is_long(place, count + text.len()) {
        return Err(TxtAppendError::LongRecordData);
    }
    if text.len() < 255 - count {
        builder.append_slice(text)?;
        builder.set_octet(place, (count + text.len()) as u8);
        return Ok(Some(place));
    }
    let (first, others) = text.split_at(255 - count);
    builder.append_slice(first)?;
    match append_strings(builder, others) {
        Ok(head) => {
            builder.set_octet(place, 255);
            Ok(head)
        }
        Err(error) => {
            builder.truncate(len);
            Err(TxtAppendError::from(error))
        }
    }
}
