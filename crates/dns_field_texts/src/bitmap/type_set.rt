//! Sets of types.
ghost use Rattle.std.specs.Prelude.{◌≡◌, ◌+◌, ◌*◌, ◌≤◌, ◌<◌, ◌↔◌, ◌⊎◌, ◌++◌, ℕ, List, [], length, replicate, slice_set, OnOk, IfOk};
ghost use Rattle.std.specs.List.{Contains};
ghost use Rattle.dns_scan.specs.Bits.{bits, all_bits};
ghost use Rattle.dns_field_texts.specs.Appended.{GoesOn, Appends};
ghost use Rattle.dns_field_texts.specs.TypeBitmap.{IsTypeBitmap, ones_from, types_in};
ghost use Rattle.dns_field_texts.specs.Windows.{IsBitmapWith, IsTrimmed, HasAlso, window_or_none};

use dns_name::OctetsBuilder;
use std::alloc::{AllocError, Global};
use std::cmp::min;
use std::marker::Model;

/// A set of types: the highest bit of the first octet stands for type 0.
///
/// A contract sees it as the list of its types, in ascending order.
#[derive(Debug, Drop)]
pub(super) struct TypeSet {
    bits: Vec<u8>,
}

impl Model for TypeSet {
    ghost Value = { List ℕ };

    ghost view = { λ set. ones_from 0 (all_bits 8 set.bits.items) };

    ghost invariant = { λ set. length set.bits.items ≤ 8192 };
}

impl TypeSet {
    /// Returns a set without types, which grows on this allocator.
    pub(super) fn new(alloc: Global) -> Self
        ensures { result ≡ [] }
    {
        TypeSet {
            bits: Vec::new(alloc),
        }
    }

    /// Inserts a type, which may be there already. Fails if out of memory.
    pub(super) fn insert(&mut self, rtype: u16) -> Result<(), AllocError>
        ensures ok { OnOk result (HasAlso self.old self.new rtype) }
    {
        insert_bit(&mut self.bits, rtype)
    }

    /// Appends the bitmap of the types. Fails if out of memory. It may then have appended some octets.
    pub(super) fn append_to(&self, octets: &mut Vec<u8>) -> Result<(), AllocError>
        ensures ok { OnOk result (Appends (IsBitmapWith self.now) octets.old.items octets.new.items) }
        ensures more { GoesOn octets.old.items octets.new.items }
    {
        append_bits(self.bits.as_slice(), octets)
    }
}

/// Inserts the type whose number is `rtype`, which may be there already. Fails if out of memory.
fn insert_bit(bits: &mut Vec<u8>, rtype: u16) -> Result<(), AllocError>
    requires { length bits.old.items ≤ 8192 }
    ensures ok { OnOk result (HasAlso (ones_from 0 (all_bits 8 bits.old.items)) (ones_from 0 (all_bits 8 bits.new.items)) rtype) }
    ensures few { length bits.new.items ≤ 8192 }
{
    let place = usize::from(rtype);
    fill_up(bits, place / 8 + 1)?;
    set_bit(bits, place);
    Ok(())
}

/// Appends zeros up to that many octets. Fails if out of memory. It may then have appended some.
fn fill_up(bits: &mut Vec<u8>, len: usize) -> Result<(), AllocError>
    ensures zeros { (count : ℕ) × (bits.new.items ≡ bits.old.items ++ replicate count 0) }
    ensures ok { OnOk result (len ≤ length bits.new.items) }
    ensures few { length bits.old.items ≤ 8192 → len ≤ 8192 → length bits.new.items ≤ 8192 }
{
    while bits.len() < len {
        bits.push(0)?;
    }
    Ok(())
}

/// Sets a bit, which is counted from the highest of the first octet.
#[tactic(auto, using(crate::proofs::TypeBits::set_rules))]
fn set_bit(bits: &mut Vec<u8>, place: usize)
    requires { place < 8 * length bits.old.items }
    ensures set { all_bits 8 bits.new.items ≡ slice_set (all_bits 8 bits.old.items) place 1 }
    ensures len { length bits.new.items ≡ length bits.old.items }
{
    let octet = with_bit(bits[place / 8], (place % 8) as u32);
    bits[place / 8] = octet;
}

/// Returns the octet with a bit set, which is counted from the highest.
#[tactic(auto, using(crate::proofs::TypeBits::bit_rules))]
fn with_bit(octet: u8, place: u32) -> u8
    requires { place < 8 }
    ensures { bits 8 result ≡ slice_set (bits 8 octet) place 1 }
{
    octet | 128 >> place
}

/// Appends the windows of the types whose bits are one.
fn append_bits(bits: &[u8], octets: &mut Vec<u8>) -> Result<(), AllocError>
    requires { length bits.now ≤ 8192 }
    ensures ok { OnOk result (Appends (IsBitmapWith (ones_from 0 (all_bits 8 bits.now))) octets.old.items octets.new.items) }
    ensures more { GoesOn octets.old.items octets.new.items }
{
    let mut left = bits;
    let mut number = 0u32;
    while !left.is_empty() {
        let (window, behind) = left.split_at(min(32, left.len()));
        append_window(number as u8, trimmed(window), octets)?;
        number += 1;
        left = behind;
    }
    Ok(())
}

/// Returns the octets without the zeros at their end.
fn trimmed(octets: &[u8]) -> &[u8]
    ensures { IsTrimmed octets.now result.now }
{
    let mut left = octets;
    while let Some((&0, front)) = left.split_last() {
        left = front;
    }
    left
}

/// Appends a window, if it has octets. Fails if out of memory. It may then have appended some octets.
fn append_window(number: u8, window: &[u8], octets: &mut Vec<u8>) -> Result<(), AllocError>
    requires { length window.now ≤ 32 }
    ensures ok { OnOk result (octets.new.items ≡ octets.old.items ++ window_or_none number window.now) }
    ensures more { GoesOn octets.old.items octets.new.items }
{
    if window.is_empty() {
        return Ok(());
    }
    octets.push(number)?;
    octets.push(window.len() as u8)?;
    match octets.append_slice(window) {
        Ok(()) => Ok(()),
        Err(_) => Err(AllocError),
    }
}
