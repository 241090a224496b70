//! Tables of at most 24 suffixes, which need no allocation.
ghost use Rattle.std.specs.Prelude.{◌≡◌, ⊤, false, ◌≤◌, ◌<◌, ◌+◌, ◌++◌, ◌↔◌, ◌^◌, [], List, ℕ, IsTrue, IfOk, OnErr, length};
ghost use Rattle.dns_name.specs.ParsedName.{labels_of};
ghost use Rattle.dns_name.specs.Remembered.{IsSound};
ghost use Rattle.dns_label.specs.Name.{low, wire};
ghost use Rattle.dns_label.specs.Spelled.{DecodesName};
ghost use Rattle.dns_name.specs.Spelling.{static_spelling, place_in};
ghost use Rattle.dns_compress.specs.Tables.{added};
ghost use Rattle.dns_compress.specs.Spots.{read_again, read_all, spots_of};

use crate::spot::Spot;
use crate::table::Table;
use arrayvec::ArrayVec;
use dns_name::{Name, ParseError, ParsedName, Parser, ToName};
use std::alloc::AllocError;

/// At most 24 suffixes, compared up to ASCII case. They are compared in the octets of the message; the table keeps
/// their places.
#[derive(Drop)]
pub struct StaticTable {
    written: ArrayVec<Spot, 24>,
}

impl StaticTable {
    /// Makes an empty table.
    pub(crate) fn new() -> Self
        ensures { result.written.items ≡ [] }
    {
        StaticTable {
            written: ArrayVec::new(),
        }
    }

    /// Adds the places of the suffixes of the name that begin with one of its first `count` labels.
    fn push_all(&mut self, name: &Name<&[u8]>, count: usize, place: usize, stop: usize)
        requires few { length self.old.written.items + length (added static_spelling count place stop name.now) ≤ 24 }
        requires room { place + length (wire name.now) < 2 ^ 64 }
        ensures { self.new.written.items ≡ self.old.written.items ++ spots_of (added static_spelling count place stop name.now) }
    {
        if count == 0 {
            return;
        }
        let Some((label, parent)) = name.split_first() else {
            return;
        };
        self.written.push(Spot { place, stop });
        self.push_all(&parent, count - 1, place + 1 + label.len(), stop);
    }
}

/// Returns the first of these places at which a name is read that equals the suffix, up to ASCII case.
fn find_among(octets: &[u8], written: &[Spot], suffix: &Name<&[u8]>) -> Option<usize>
    requires { ∥ IsSound static_spelling (read_all octets.now written.now) octets.now ∥₁ }
    ensures { result ≡ place_in static_spelling (read_all octets.now written.now) (wire suffix.now) }
{
    // (Calling `len` tells the prover that the suffix is a name.)
    let _len = suffix.len();
    for spot in written {
        if is_same_at(octets, spot.place, suffix) {
            return Some(spot.place);
        }
    }
    None
}

/// Returns whether the name that is read at the place equals the suffix, up to ASCII case.
fn is_same_at(octets: &[u8], place: usize, suffix: &Name<&[u8]>) -> bool
    ensures { (name : List (List ℕ)) (next : ℕ) → DecodesName octets.now place name next → IsTrue result ↔ (low name ≡ low suffix.now) }
{
    match name_at(octets, place) {
        Ok(name) => name.name_eq(suffix),
        Err(_) => false,
    }
}

/// Parses the name at the place. Fails if no name is spelled there.
fn name_at(octets: &[u8], place: usize) -> Result<ParsedName<&[u8]>, ParseError>
    ensures ok { IfOk result (λ read. (name : List (List ℕ)) (next : ℕ) → DecodesName octets.now place name next → labels_of read ≡ name) }
    ensures err { OnErr result ((name : List (List ℕ)) (next : ℕ) → DecodesName octets.now place name next → ⊥) }
{
    let mut parser = Parser::from_ref(octets);
    parser.seek(place)?;
    let name = ParsedName::parse(&mut parser)?;
    Ok(name)
}

impl Table for StaticTable {
    ghost use Rattle.dns_compress.specs.Seen.{spots_in};

    ghost spelling = { static_spelling };

    ghost known = { λ table octets. read_all octets (spots_in table) };

    ghost lowers = { false };

    ghost has_room = { λ _ _ _. ⊤ };

    fn lowers(&self) -> bool {
        false
    }

    fn find(&self, octets: &[u8], key: &Name<&[u8]>) -> Option<usize> {
        find_among(octets, self.written.as_slice(), key)
    }

    fn may_stand(&self, more: usize, place: usize) -> bool {
        self.written.len() + more < 24 && place < 16384
    }

    fn can_compress(&self) -> bool {
        true
    }

    fn reserve(&mut self, _key: &Name<&[u8]>, _count: usize) -> Result<(), AllocError> {
        Ok(())
    }

    fn remember(
        &mut self,
        _octets: &[u8],
        name: &Name<&[u8]>,
        _key: &Name<&[u8]>,
        count: usize,
        place: usize,
        stop: usize,
    ) {
        self.push_all(name, count, place, stop);
    }

    fn forget(&mut self, len: usize) {
        self.written.retain(|spot| spot.stop <= len);
    }

    ghost steady = { λ table old new _ sound. read_again (spots_in table) old new sound };
}
