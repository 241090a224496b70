//! Chains of two names.
use crate::name_calls::read::{flat, relative};
use crate::name_calls::{any_name, relative_names};
use dns_name::{Chain, Name, RelativeName, ToLabelIter, ToRelativeName};
use rows::{Answer, Row, RowError};
use std::alloc::Global;

/// The two names are the first arguments of each call. If the second is absolute, so is the chain.
pub fn answer(alloc: Global, row: &mut Row<'_>, out: &mut Answer) -> Result<(), RowError> {
    let left = row.octets(alloc)?;
    let left = relative(left.as_slice())?;
    if row.method() == "chain_root" {
        let chain = left.chain_root();
        return out.octets(dns_name::ToName::to_vec(&chain, alloc)?.as_slice());
    }
    let right = row.octets(alloc)?;
    match Name::from_slice(right.as_slice()) {
        Ok(right) => answer_absolute(alloc, left, right, row, out),
        Err(_) => answer_relative(alloc, left, relative(right.as_slice())?, row, out),
    }
}

fn answer_absolute(
    alloc: Global,
    left: RelativeName<&[u8]>,
    right: Name<&[u8]>,
    row: &mut Row<'_>,
    out: &mut Answer,
) -> Result<(), RowError> {
    let chain = match Chain::new(left, right) {
        Ok(chain) => chain,
        Err(error) => return out.refused(&error),
    };
    match row.method() {
        "new" => out.shown(&chain.compose_len()),
        "to_string" => out.shown(&chain),
        "unwrap" => {
            let (left, right) = chain.unwrap();
            out.octets(left.as_slice())?;
            out.octets(right.as_slice())
        }
        _ => any_name::answer(alloc, &chain, row, out),
    }
}

fn answer_relative(
    alloc: Global,
    left: RelativeName<&[u8]>,
    right: RelativeName<&[u8]>,
    row: &mut Row<'_>,
    out: &mut Answer,
) -> Result<(), RowError> {
    let chain = match Chain::new(left, right) {
        Ok(chain) => chain,
        Err(error) => return out.refused(&error),
    };
    match row.method() {
        "new" => out.shown(&chain.compose_len()),
        "to_string" => out.shown(&chain),
        "chain" => {
            let base = row.octets(alloc)?;
            match chain.chain(flat(base.as_slice())?) {
                Ok(whole) => any_name::answer_chain(alloc, &whole, out),
                Err(error) => out.refused(&error),
            }
        }
        _ => relative_names::answer_any(alloc, &chain, row, out),
    }
}
