//! Runs of octets of one kind.
use dns_name::{OctetKind, run_end};
use std::simd::prelude::*;
use std::test::Fail;

/// The kind of one octet, the letter a.
struct LetterA;

impl OctetKind for LetterA {
    ghost use Rattle.std.specs.Prelude.{◌==◌};

    ghost has = { λ octet. octet == 97 };

    fn has(octet: u8) -> bool {
        octet == b'a'
    }

    fn others(octets: u8x16) -> u64 {
        octets.simd_ne(u8x16::splat(b'a')).to_bitmask()
    }
}

/// Texts shorter and longer than the octets that are checked together, with another octet at each place or none.
#[test]
fn a_run_ends_at_another_octet_or_the_end(rt: HostRuntime) -> Result<(), Fail> {
    for len in 0..40 {
        for other in 0..len + 1 {
            let mut text = vec![in rt.alloc(); b'a'; len]?;
            if other < len {
                text[other] = b'b';
            }
            for place in 0..len + 1 {
                let end = if place <= other { other } else { len };
                assert!(rt; run_end::<LetterA>(text.as_slice(), place) == end);
            }
        }
    }
    Ok(())
}
