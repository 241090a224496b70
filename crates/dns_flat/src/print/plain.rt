//! The text of most names, whose octets are printed as themselves: made whole, so that it is written at once.
ghost use Rattle.std.specs.Prelude.{◌≡◌, ◌≤◌, ◌++◌, OnSome, IfSome, IsTrue};
ghost use Rattle.std.specs.List.{prefix_len};
ghost use Rattle.dns_flat.specs.PrintedLabels.{printed_behind, printed_seen, with_ends};
ghost use Rattle.dns_label.specs.Labels.{labels_at};
ghost use Rattle.dns_label.specs.Printed.{is_printed_as_itself, printed_name};
ghost use Rattle.dns_wire.specs.Chain.{AreOfName};
ghost use Rattle.dns_wire.specs.Flat.{IsWritten};

use arrayvec::ArrayString;
use dns_label::{OctetKind, PlainLabelOctets};
use dns_wire::{LabelIter, ToLabelIter};
use std::simd::prelude::*;

/// The number of octets that are looked at together.
const LANES: usize = 16;

/// The number of octets of the array for a text: more than any has, and a multiple of `LANES`.
pub(super) const ROOM: usize = 256;

/// An octet that is printed as itself.
pub(super) const PLAIN: u8 = b'a';

/// Makes the text of the name in these octets, in the array, and returns it. Returns None if an octet is escaped, or if the name is the root.
///
/// The text has the name's octets behind the first, with a dot in place of each label's length. A plain octet stands there
/// while all are looked at, sixteen at a time. Those of the array behind them may be looked at too, so it comes full of plain octets:
/// with any other behind them, the result may be None.
pub(super) fn plain_text<'a>(text: &'a mut [u8; ROOM], octets: &[u8]) -> Option<&'a str>
    requires { IsWritten octets.now }
    ensures { IfSome result (λ shown. shown.now ≡ printed_name (labels_at octets.now 0)) }
{
    let behind = &octets[1..];
    let len = behind.len();
    if len == 0 {
        return None;
    }
    text[..len].copy_from_slice(behind);
    put_behind_labels(text, octets, PLAIN);
    if !begins_plain(text, len) {
        return None;
    }
    put_behind_labels(text, octets, b'.');
    Some(unsafe { str::from_utf8_unchecked(&text[..len]) })
}

/// Puts an octet behind each label of a text, which has the labels where the name's octets behind the first have them.
fn put_behind_labels(text: &mut [u8; ROOM], octets: &[u8], mark: u8)
    requires { IsWritten octets.now }
    ensures { text.new ≡ with_ends mark (labels_at octets.now 0) text.old }
{
    let last = octets.len() - 1;
    let mut end = usize::from(octets[0]);
    while end < last {
        text[end] = mark;
        end += usize::from(octets[end + 1]) + 1;
    }
}

/// Returns whether the first octets, `len` of them, are printed as themselves, and those that are looked at with the last.
fn begins_plain(text: &[u8; ROOM], len: usize) -> bool
    requires { len ≤ 256 }
    ensures { IsTrue result → len ≤ prefix_len is_printed_as_itself text.now }
{
    let mut place = 0;
    while place < len {
        if PlainLabelOctets::others(u8x16::from_slice(&text[place..])) != 0 {
            return false;
        }
        place += LANES;
    }
    true
}

/// Appends the text of a name. Returns None, perhaps with a part of it appended, if an octet is escaped, or if the name has no
/// label before the root's.
pub(super) fn push_name<N: ToLabelIter>(text: &mut ArrayString<255>, name: &N) -> Option<()>
    ensures text { OnSome result (text.new.bytes ≡ text.old.bytes ++ printed_seen (N.labels name.now)) }
    ensures are { ∥ AreOfName (N.labels name.now) ∥₁ }
{
    let mut labels = name.iter_labels();
    let first = labels.next()?;
    if first.is_root() {
        return None;
    }
    text.try_push_str(first.plain_text()?).ok()?;
    push_others(text, labels)
}

/// Appends a dot before each label. Returns None if an octet is escaped.
fn push_others<N: ToLabelIter>(text: &mut ArrayString<255>, labels: LabelIter<'_, N>) -> Option<()>
    ensures { OnSome result (text.new.bytes ≡ text.old.bytes ++ printed_behind labels.entry) }
{
    for label in labels {
        text.try_push_str(".").ok()?;
        text.try_push_str(label.plain_text()?).ok()?;
    }
    Some(())
}
