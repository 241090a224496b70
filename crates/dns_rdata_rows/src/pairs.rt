//! Comparisons of two values of data.
use crate::given::{Given, Read};
use dns_name::CanonicalOrd;
use rows::{Answer, Row, RowError};
use std::alloc::Global;
use std::hash::{DefaultHasher, Hash, Hasher};

fn hashed(rdata: &Read<'_>) -> u64 {
    let mut state = DefaultHasher::new();
    rdata.hash(&mut state);
    state.finish()
}

/// Answers a comparison.
pub fn answer(alloc: Global, row: &mut Row<'_>, out: &mut Answer) -> Result<(), RowError> {
    let one = Given::of(row)?;
    let mut both = row.octets(alloc)?;
    let len = both.len();
    let other = Given::of(row)?;
    both.extend_from_slice(row.octets(alloc)?.as_slice())?;
    let Some((front, back)) = both.as_slice().split_at_checked(len) else {
        return Err(RowError::BadWord);
    };
    match (one.read(front), other.read(back)) {
        (Ok(one), Ok(other)) => compared(row.call(), &one, &other, out),
        _ => Err(RowError::BadWord),
    }
}

/// Writes how the values compare; for `eq` also whether they have the same hash.
fn compared(
    call: &str,
    one: &Read<'_>,
    other: &Read<'_>,
    out: &mut Answer,
) -> Result<(), RowError> {
    match call {
        "eq" => {
            out.shown(&(*one == *other))?;
            out.shown(&(hashed(one) == hashed(other)))
        }
        "cmp" => out.named(&one.cmp(other)),
        "partial_cmp" => out.named(&one.partial_cmp(other)),
        "canonical_cmp" => out.named(&one.canonical_cmp(other)),
        _ => out.shown(&one.canonical_lt(other)),
    }
}
