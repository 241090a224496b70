//! The hash of suffixes.
ghost use Rattle.std.specs.Prelude.{◌≡◌, ◌<◌, fold};
ghost use Rattle.dns_compress.specs.SuffixHash.{scattered, mixed, hash_of, bucket_of};

/// How many buckets there are.
pub(crate) const BUCKETS: usize = 512;

/// The default seed of compressors: the first digits of pi after the point.
pub(crate) const DEFAULT_SEED: u64 = 0x243f_6a88_85a3_08d3;

/// 2^64 divided by the golden ratio.
const MULTIPLIER: u64 = 0x9e37_79b9_7f4a_7c15;

/// Hashes octets by words of eight, of which the last two may have octets in common.
///
/// Anyone who knows the seed can pick names that collide. A look-up then takes time linear in the suffixes of the message.
#[inline]
pub(crate) fn hash(seed: u64, octets: &[u8]) -> u64
    ensures { result ≡ hash_of seed octets.now }
{
    let Some((_, last)) = octets.split_last_chunk::<8>() else {
        return hash_few(seed, octets);
    };
    let mut state = seed;
    let mut rest = octets;
    while let Some((word, others)) = rest.split_first_chunk::<8>() {
        state = mix(state, u64::from_le_bytes(*word));
        rest = others;
    }
    mix(state, u64::from_le_bytes(*last))
}

/// Hashes octets one by one.
fn hash_few(seed: u64, octets: &[u8]) -> u64
    ensures { result ≡ fold mixed seed octets.now }
{
    let mut state = seed;
    for octet in octets {
        state = mix(state, *octet as u64);
    }
    state
}

/// Returns the bucket of a hash: its top nine bits, since a multiplication makes these depend on all octets.
#[inline(always)]
#[tactic(auto, unfolding(crate::specs::SuffixHash::bucket_of))]
pub(crate) fn bucket(hash: u64) -> usize
    ensures is { result ≡ bucket_of hash }
    ensures within { result < 512 }
{
    (hash >> 55) as usize
}

/// Mixes in an octet, or a word of eight.
#[inline(always)]
fn mix(state: u64, word: u64) -> u64
    ensures { result ≡ mixed state word }
{
    scatter(state ^ word)
}

/// Multiplies to 128 bits and joins the halves, so that each bit depends on all of the word.
#[inline(always)]
#[tactic(auto, unfolding(crate::specs::SuffixHash::scattered))]
fn scatter(word: u64) -> u64
    ensures { result ≡ scattered word }
{
    let product = word as u128 * MULTIPLIER as u128;
    (product & 0xFFFF_FFFF_FFFF_FFFF) as u64 ^ (product >> 64) as u64
}
