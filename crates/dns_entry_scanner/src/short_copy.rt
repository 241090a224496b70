//! Short copies whose lengths the compiler knows: of a chunk and more, cut to what is wanted, and of both ends of what is copied.
ghost use Rattle.std.specs.Prelude.{◌≡◌, ◌≤◌, ◌+◌, ◌++◌, List, ℕ, length, take, OnOk};
ghost use Rattle.dns_name.specs.Remembered.{patched};
ghost use Rattle.dns_entry_scanner.specs.AppendedName.{HasBehind};

use dns_name::Composer;
use std::alloc::AllocError;

/// How many octets are copied together, where a longer text has as many.
const CHUNK_LEN: usize = 64;

/// Appends the text that a longer one begins with, and `room` octets of any value behind it. One copy from the longer text is both,
/// if that has as many octets. Most are short, and a chunk of the longer text is copied then: a copy of a length that the compiler
/// knows takes a few instructions.
///
/// If out of memory, fails and may have appended the text. It is called for almost each name, so it is inlined.
#[inline(always)]
pub(crate) fn append_longer(
    text: &[u8],
    from: &[u8],
    room: usize,
    octets: &mut Vec<u8>,
) -> Result<(), AllocError>
    requires begins { text.now ≡ take (length text.now) from.now }
    requires room { room ≤ 510 }
    ensures ok { OnOk result (HasBehind room (octets.old.items ++ text.now) octets.new.items) }
    ensures front { take (length octets.old.items) octets.new.items ≡ octets.old.items }
{
    let whole = text.len() + room;
    if whole <= CHUNK_LEN && CHUNK_LEN <= from.len() {
        let len = octets.len();
        octets.extend_from_slice(&from[..CHUNK_LEN])?;
        octets.truncate(len + whole);
        return Ok(());
    }
    if whole <= from.len() {
        octets.extend_from_slice(&from[..whole])?;
        return Ok(());
    }
    octets.extend_from_slice(text)?;
    octets.resize(octets.len() + room, 0)?;
    Ok(())
}

/// Overwrites the octets from the place on. Those of 8 to 32 octets are written as two parts of one length, which overlap.
#[inline(always)]
pub(crate) fn write_over(octets: &mut Vec<u8>, place: usize, over: &[u8])
    requires { place + length over.now ≤ length octets.old.items }
    ensures { octets.new.items ≡ patched octets.old.items place over.now }
{
    match over.len() {
        8..=16 => write_ends::<8>(octets, place, over),
        17..=32 => write_ends::<16>(octets, place, over),
        _ => octets.patch(place, over),
    }
}

/// The same for so many octets or up to twice as many: the first ones are written, and then the last ones.
#[inline(always)]
fn write_ends<const N: usize>(octets: &mut Vec<u8>, place: usize, over: &[u8])
    requires within { place + length over.now ≤ length octets.old.items }
    requires many { N ≤ length over.now }
    requires few { length over.now ≤ N + N }
    ensures { octets.new.items ≡ patched octets.old.items place over.now }
{
    let behind = over.len() - N;
    octets.patch(place, &over[..N]);
    octets.patch(place + behind, &over[behind..]);
}
