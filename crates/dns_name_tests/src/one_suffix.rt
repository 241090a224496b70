//! A target that remembers the first name that it writes, up to ASCII case or octet for octet.
ghost use Rattle.std.specs.Prelude.{Bool, true, false, ◌≡◌, ◌≤◌, ◌<◌, ◌++◌, [], ⊤, None, Err, length, drop, slice_range, IfOk, OnErr};
ghost use Rattle.dns_octets.specs.Builder.{GrowsTo};
ghost use Rattle.dns_octets.specs.declared.error.AppendError.TheVariants.{ShortBuf, BadLength};
ghost use Rattle.dns_label.specs.Name.{IsName};
ghost use Rattle.dns_name.specs.Spelling.{name_text, known_after, pointer_to, is_same};
ghost use Rattle.dns_name.specs.Remembered.{IsSound, sound_none};
ghost use Rattle.dns_name_tests.specs.OneSuffix.{one_suffix, remembered, within, standing_at};

use dns_name::{AppendError, Composer, Octets, OctetsBuilder, Remembers, ToName, Truncate};
use std::alloc::Global;

/// How names are compared.
pub trait Comparison: Copy {
    /// Whether names that differ only in ASCII case are the same.
    ghost folds: { Bool };

    /// Returns whether two names, as octets on the wire, are the same.
    fn same(&self, one: &[u8], other: &[u8]) -> bool
        ensures { result ≡ is_same (one_suffix folds) one.now other.now };
}

/// Names that differ only in ASCII case are the same (RFC 4343).
#[derive(Clone, Copy)]
pub struct UpToCase;

impl Comparison for UpToCase {
    ghost folds = { true };

    fn same(&self, one: &[u8], other: &[u8]) -> bool {
        one.eq_ignore_ascii_case(other)
    }
}

/// Names are the same if their octets are.
#[derive(Clone, Copy)]
pub struct OctetForOctet;

impl Comparison for OctetForOctet {
    ghost folds = { false };

    fn same(&self, one: &[u8], other: &[u8]) -> bool {
        one == other
    }
}

/// The octets, and the places of the remembered name: where it begins and where it ends.
#[derive(Drop)]
pub struct OneSuffix<C: Comparison> {
    comparison: C,
    octets: Vec<u8>,
    between: Option<(usize, usize)>,
    ghost sound: { ∥ IsSound (one_suffix C.folds) (remembered C.folds octets.items between) octets.items ∥₁ },
}

impl<C: Comparison> OneSuffix<C> {
    /// Returns a target without octets.
    pub fn new(comparison: C, alloc: Global) -> Self {
        OneSuffix {
            comparison,
            octets: Vec::new(alloc),
            between: None,
        }
    }
}

impl<C: Comparison> Octets for OneSuffix<C> {
    ghost list = { λ target. target.octets.items };

    fn octets(&self) -> &[u8] {
        self.octets.as_slice()
    }
}

impl<C: Comparison> Remembers for OneSuffix<C> {
    ghost known = { λ target. remembered C.folds target.octets.items target.between };
}

impl<C: Comparison> OctetsBuilder for OneSuffix<C> {
    ghost bound = { λ _. None };

    ghost stays = { λ _ _. ⊤ };

    ghost stays_on = { λ _ _ _ _ _. tt };

    ghost stays_here = { λ _. tt };

    fn append_slice(&mut self, octets: &[u8]) -> Result<(), AppendError> {
        self.octets.append_slice(octets)
    }

    fn len(&self) -> usize {
        self.octets.len()
    }
}

impl<C: Comparison> Truncate for OneSuffix<C> {
    fn truncate(&mut self, len: usize) {
        self.between = still_within(self.between, len);
        self.octets.truncate(len);
    }
}

/// Returns what is still remembered after the octets are cut to a length.
fn still_within(between: Option<(usize, usize)>, len: usize) -> Option<(usize, usize)>
    ensures { result ≡ within len between }
{
    match between {
        Some((place, stop)) if stop <= len => Some((place, stop)),
        _ => None,
    }
}

impl<C: Comparison> Composer for OneSuffix<C> {
    ghost spelling = { one_suffix C.folds };

    fn append_compressed_name<N: ToName>(&mut self, name: &N) -> Result<(), AppendError> {
        self.between = append_name(self.comparison, &mut self.octets, self.between, name)?;
        Ok(())
    }

    fn can_compress(&self) -> bool {
        true
    }

    fn patch(&mut self, place: usize, octets: &[u8]) {
        self.octets.patch(place, octets);
    }

    ghost sound = { λ target. target.sound };
}

/// Appends a pointer if the name is the remembered one, otherwise the name in full. Returns which name is remembered
/// then. Fails only if out of memory, and then leaves the octets as they were.
fn append_name<C: Comparison, N: ToName>(
    comparison: C,
    octets: &mut Vec<u8>,
    between: Option<(usize, usize)>,
    name: &N,
) -> Result<Option<(usize, usize)>, AppendError>
    requires { ∥ IsSound (one_suffix C.folds) (remembered C.folds octets.old.items between) octets.old.items ∥₁ }
    ensures ok { IfOk result (λ after. octets.new.items ≡ octets.old.items
        ++ name_text (one_suffix C.folds) (remembered C.folds octets.old.items between) (length octets.old.items)
        (N.name name.now)) }
    ensures known { IfOk result (λ after. remembered C.folds octets.new.items after
        ≡ known_after (one_suffix C.folds) (remembered C.folds octets.old.items between) (length octets.old.items)
        (N.name name.now)) }
    ensures err { OnErr result (octets.new.items ≡ octets.old.items) }
    ensures grows { GrowsTo octets.old.items [] octets.new.items [] }
    ensures short { result ≡ Err ShortBuf → ⊥ }
    ensures not_bad { result ≡ Err BadLength → ⊥ }
    ensures name { IsName (N.name name.now) }
{
    let _flat = name.as_flat_slice();
    let place = (*octets).len();
    name.compose(octets)?;
    match between {
        Some(at) => {
            if is_repeated(comparison, octets.as_slice(), at.0, at.1, place) {
                octets.truncate(place);
                octets.append_slice(&pointer(at.0))?;
            }
            Ok(between)
        }
        None => {
            let stop = (*octets).len();
            Ok(whole_name(place, stop))
        }
    }
}

/// Returns whether the octets from a place on are the same as those between two earlier places.
fn is_repeated<C: Comparison>(
    comparison: C,
    octets: &[u8],
    start: usize,
    stop: usize,
    place: usize,
) -> bool
    requires in_order { start ≤ stop }
    requires before { stop ≤ place }
    requires there { place ≤ length octets.now }
    ensures { result ≡ is_same (one_suffix C.folds) (slice_range octets.now start stop) (drop place octets.now) }
{
    comparison.same(&octets[start..stop], &octets[place..])
}

/// Returns the places of a name, unless it is the root or no pointer reaches it.
fn whole_name(place: usize, stop: usize) -> Option<(usize, usize)>
    requires { place < stop }
    ensures { result ≡ standing_at place stop }
{
    if place < 16384 && 1 < stop - place {
        Some((place, stop))
    } else {
        None
    }
}

/// Returns the two octets of a pointer.
fn pointer(place: usize) -> [u8; 2]
    requires { place < 16384 }
    ensures { result ≡ pointer_to place }
{
    [192 + (place / 256) as u8, (place % 256) as u8]
}
