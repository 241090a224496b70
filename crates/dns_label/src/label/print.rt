//! Labels as text (RFC 1035, section 5.1).
ghost use Rattle.std.specs.Prelude.{◌≡◌, Some, IfSome, map, not};
ghost use Rattle.std.specs.Fmt.{DisplaysOnOk};
ghost use Rattle.std.specs.Simd.Lanes.{mask_l};
ghost use Rattle.dns_label.specs.Label.{label_octets};
ghost use Rattle.dns_label.specs.Printed.{is_printed_as_itself, printed_label};

use super::Label;
use crate::{OctetKind, Symbol, run_end};
use std::fmt;
use std::simd::prelude::*;

impl Label<'_> {
    /// Returns the octets as text if each is printed as itself, as those of most labels are.
    pub fn plain_text(&self) -> Option<&str>
        ensures { IfSome result (λ text. text.now ≡ printed_label (label_octets self.now)) }
    {
        let octets = self.as_slice();
        if run_end::<PlainLabelOctets>(octets, 0) < octets.len() {
            return None;
        }
        Some(unsafe { str::from_utf8_unchecked(octets) })
    }
}

impl fmt::Display for Label<'_> {
    ghost output = { λ label. Some (printed_label (label_octets label)) };

    fn fmt<W: fmt::Write>(&self, f: &mut fmt::Formatter<W>) -> fmt::Result {
        match self.plain_text() {
            Some(text) => f.write_str(text),
            None => write_symbols(f, self.as_slice()),
        }
    }
}

/// The octets of a label that are printed as themselves.
pub struct PlainLabelOctets;

impl OctetKind for PlainLabelOctets {
    ghost has = { is_printed_as_itself };

    fn has(octet: u8) -> bool {
        matches!(octet, b'!'..=b'~')
            && !matches!(octet, b'"' | b'$' | b'(' | b')' | b'.' | b';' | b'\\')
    }

    fn others(octets: u8x16) -> u64 {
        let outside = octets.simd_lt(u8x16::splat(b'*')) | octets.simd_gt(u8x16::splat(b'~'));
        let ends = octets.simd_eq(u8x16::splat(b'.')) | octets.simd_eq(u8x16::splat(b';'));
        let escapes = octets.simd_eq(u8x16::splat(b'\\'));
        let rare = (outside | ends | escapes).to_bitmask();

        // Hardly any label has an octet below the asterisk, so that these comparisons mostly suffice.
        if rare == 0 { 0 } else { escaped(octets) }
    }
}

/// Returns a mask of the octets of a label that are not printed as themselves: a bit for each, the lowest for the first.
fn escaped(octets: u8x16) -> u64
    ensures { result ≡ mask_l (map (λ octet. not (is_printed_as_itself octet)) octets) }
{
    let outside = octets.simd_lt(u8x16::splat(b'!')) | octets.simd_gt(u8x16::splat(b'~'));
    let parentheses = octets.simd_eq(u8x16::splat(b'(')) | octets.simd_eq(u8x16::splat(b')'));
    let marks = octets.simd_eq(u8x16::splat(b'"')) | octets.simd_eq(u8x16::splat(b'$'));
    let ends = octets.simd_eq(u8x16::splat(b'.')) | octets.simd_eq(u8x16::splat(b';'));
    let escapes = octets.simd_eq(u8x16::splat(b'\\'));
    (outside | parentheses | marks | ends | escapes).to_bitmask()
}

/// Writes each octet as its symbol.
fn write_symbols<W: fmt::Write>(f: &mut fmt::Formatter<W>, octets: &[u8]) -> fmt::Result
    ensures { DisplaysOnOk W.write_str_gives f.old result (Some (printed_label octets.now)) f.new }
{
    for &octet in octets {
        let symbol = Symbol::label_from_octet(octet);
        write!(f, "{symbol}")?;
    }
    Ok(())
}
