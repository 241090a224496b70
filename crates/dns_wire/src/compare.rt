//! Comparing names of any kind, label by label and up to ASCII case (RFC 4343).
ghost use Rattle.std.specs.Prelude.{◌≡◌, ◌≤◌, ◌↔◌, IsTrue, length, drop, map};
ghost use Rattle.std.specs.Char.{to_ascii_lowercase};
ghost use Rattle.std.specs.Ordering.{ordering_then};
ghost use Rattle.dns_label.specs.Labels.{labels_at};
ghost use Rattle.dns_label.specs.Name.{low};
ghost use Rattle.dns_wire.specs.Flat.{IsWritten};
ghost use Rattle.dns_wire.specs.Order.{label_order, labels_order};
ghost use Rattle.dns_wire.specs.Suffix.{EndsWith, StartsWith};

mod words;

use crate::{LabelIter, ToLabelIter};
use std::cmp::Ordering;
use words::are_same;

/// Returns whether the labels of `name` begin with those of `start`, up to ASCII case.
pub fn starts_with<N: ToLabelIter, B: ToLabelIter>(name: &N, start: &B) -> bool
    ensures { IsTrue result ↔ StartsWith (low (N.labels name.now)) (low (B.labels start.now)) }
{
    let mut labels = name.iter_labels();
    let mut others = start.iter_labels();
    loop {
        let Some(other) = others.next() else {
            return true;
        };
        let Some(label) = labels.next() else {
            return false;
        };
        if !label.as_slice().eq_ignore_ascii_case(other.as_slice()) {
            return false;
        }
    }
}

/// Returns whether the labels of `name` end with those of `end`, up to ASCII case.
pub fn ends_with<N: ToLabelIter, B: ToLabelIter>(name: &N, end: &B) -> bool
    ensures { IsTrue result ↔ EndsWith (low (N.labels name.now)) (low (B.labels end.now)) }
{
    let count = count_labels(name);
    let Some(extra) = count.checked_sub(count_labels(end)) else {
        return false;
    };
    same_labels(behind(name.iter_labels(), extra), end.iter_labels())
}

/// Returns whether the name in these octets ends with the other one, up to ASCII case. A name has at most one suffix
/// with a given number of octets, so that suffix alone is compared. It is called once per record of a zone, so it is
/// inlined.
#[inline(always)]
pub fn flat_ends_with(octets: &[u8], end: &[u8]) -> bool
    requires name { IsWritten octets.now }
    requires end { IsWritten «end».now }
    ensures { IsTrue result ↔ EndsWith (low (labels_at octets.now 0)) (low (labels_at «end».now 0)) }
{
    let mut rest = octets;
    while rest.len() > end.len() {
        let Some((len, behind)) = rest.split_first() else {
            return false;
        };
        let Some(behind) = behind.get(usize::from(*len)..) else {
            return false;
        };
        rest = behind;
    }
    is_same_text(rest, end)
}

/// Returns whether octets are the same up to ASCII case. Most that are so also have the same case, which is found
/// faster.
#[inline(always)]
fn is_same_text(octets: &[u8], other: &[u8]) -> bool
    ensures { IsTrue result ↔ (map to_ascii_lowercase octets.now ≡ map to_ascii_lowercase other.now) }
{
    are_same(octets, other) || octets.eq_ignore_ascii_case(other)
}

/// Returns the number of labels, at most 128.
pub fn count_labels<N: ToLabelIter>(name: &N) -> usize
    ensures count { result ≡ length (N.labels name.now) }
    ensures few { result ≤ 128 }
{
    name.iter_labels().count()
}

/// Returns the labels after the first `count`.
fn behind<N: ToLabelIter>(labels: LabelIter<'_, N>, count: usize) -> LabelIter<'_, N>
    ensures { result ≡ drop count labels.entry }
{
    let mut labels = labels;
    for _ in 0..count {
        let _ = labels.next();
    }
    labels
}

/// Returns whether the labels are the same up to ASCII case.
pub fn same_labels<N: ToLabelIter, B: ToLabelIter>(
    labels: LabelIter<'_, N>,
    others: LabelIter<'_, B>,
) -> bool
    ensures { IsTrue result ↔ (low labels.entry ≡ low others.entry) }
{
    let mut labels = labels;
    let mut others = others;
    loop {
        match (labels.next(), others.next()) {
            (Some(label), Some(other)) => {
                if !label.as_slice().eq_ignore_ascii_case(other.as_slice()) {
                    return false;
                }
            }
            (None, None) => return true,
            _ => return false,
        }
    }
}

/// Compares the labels from the right in lower case; a missing label is before any other.
pub fn cmp_labels<N: ToLabelIter, B: ToLabelIter>(name: &N, other: &B) -> Ordering
    ensures { result ≡ labels_order (N.labels name.now) (B.labels other.now) }
{
    let count = count_labels(name);
    let other_count = count_labels(other);
    let labels = behind(name.iter_labels(), count.saturating_sub(other_count));
    let others = behind(other.iter_labels(), other_count.saturating_sub(count));
    cmp_aligned(labels, others, count.cmp(&other_count))
}

/// Compares two lists with the same number of labels from the right, and returns `tied` if they are equal.
fn cmp_aligned<N: ToLabelIter, B: ToLabelIter>(
    labels: LabelIter<'_, N>,
    others: LabelIter<'_, B>,
    tied: Ordering,
) -> Ordering
    requires { length labels ≡ length others }
    ensures { result ≡ ordering_then (labels_order labels.entry others.entry) tied }
{
    let mut labels = labels;
    let mut others = others;
    let mut order = tied;
    while let Some(label) = labels.next() {
        let Some(other) = others.next() else {
            return order;
        };
        // The labels further to the right decide first.
        order = cmp_octets(label.as_slice(), other.as_slice()).then(order);
    }
    order
}

/// Compares the octets of two labels in lower case.
fn cmp_octets(octets: &[u8], others: &[u8]) -> Ordering
    ensures { result ≡ label_order octets.now others.now }
{
    let count = octets.len().min(others.len());
    for i in 0..count {
        let octet = octets[i].to_ascii_lowercase();
        let other = others[i].to_ascii_lowercase();
        if octet != other {
            return octet.cmp(&other);
        }
    }
    octets.len().cmp(&others.len())
}
