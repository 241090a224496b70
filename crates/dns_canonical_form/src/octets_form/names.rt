//! Names in octets, and the order of their octets in lower case.
ghost use Rattle.std.specs.Prelude.{◌≡◌, ◌++◌, ℕ, List, length, map};
ghost use Rattle.std.specs.Char.{to_ascii_lowercase};
ghost use Rattle.std.specs.Cmp.Lexicographic.{slice_cmp};
ghost use Rattle.std.specs.Ordering.{nat_cmp};
ghost use Rattle.std.proofs.Common.{refl};
ghost use Rattle.dns_label.specs.Labels.{labels_at};
ghost use Rattle.dns_label.specs.Name.{IsName, wire};
ghost use Rattle.dns_fields.specs.Fields as fields;

use super::FieldOctetsForm;
use dns_fields::{Compressible, Uncompressed};
use dns_name::{ParsedName, Parser};
use std::cmp::Ordering;

impl<N> FieldOctetsForm for Compressible<N> {
    ghost kind = { fields.Compressible };

    fn is_name() -> bool {
        true
    }

    fn len_in(octets: &[u8]) -> usize {
        name_len(octets)
    }

    ghost ends = { refl };
}

impl<N> FieldOctetsForm for Uncompressed<N> {
    ghost kind = { fields.Uncompressed };

    fn is_name() -> bool {
        true
    }

    fn len_in(octets: &[u8]) -> usize {
        name_len(octets)
    }

    ghost ends = { refl };
}

/// Returns the length of the name that the octets begin with, or any number if they begin with none.
fn name_len(octets: &[u8]) -> usize
    ensures { (name : List (List ℕ)) (rest : List ℕ) → IsName name → octets.now ≡ wire name ++ rest
        → result ≡ length (wire (labels_at octets.now 0)) }
{
    let mut parser = Parser::from_ref(octets);
    match ParsedName::parse_ref(&mut parser) {
        Ok(_) => parser.pos(),
        Err(_) => octets.len(),
    }
}

/// Compares octets as if ASCII letters were in lower case.
pub(super) fn cmp_lower(octets: &[u8], others: &[u8]) -> Ordering
    ensures { result ≡ slice_cmp nat_cmp (map to_ascii_lowercase octets.now) (map to_ascii_lowercase others.now) }
{
    let mut left = octets;
    let mut right = others;
    loop {
        match (left.split_first(), right.split_first()) {
            (Some((first, behind)), Some((other, beyond))) => {
                match first.to_ascii_lowercase().cmp(&other.to_ascii_lowercase()) {
                    Ordering::Less => return Ordering::Less,
                    Ordering::Greater => return Ordering::Greater,
                    Ordering::Equal => {}
                }
                left = behind;
                right = beyond;
            }
            (None, Some(_)) => return Ordering::Less,
            (Some(_), None) => return Ordering::Greater,
            (None, None) => return Ordering::Equal,
        }
    }
}
