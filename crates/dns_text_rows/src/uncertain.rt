//! Names that are absolute or relative (RFC 1035 5.1).
use dns_name::{Name, ToLabelIter, ToName};
use dns_text::UncertainName;
use rows::{Answer, Row, RowError};
use std::alloc::Global;
use std::error::Error;
use std::hash::{DefaultHasher, Hash, Hasher};

type Owned = UncertainName<Vec<u8>>;

/// Writes whether a name is absolute or relative, its octets and its text.
fn name_or<E: Error>(out: &mut Answer, name: Result<Owned, E>) -> Result<(), RowError> {
    match name {
        Ok(name) => {
            out.shown(&if name.is_absolute() {
                "absolute"
            } else {
                "relative"
            })?;
            out.octets(name.as_slice())?;
            out.shown(&name)
        }
        Err(error) => out.refused(&error),
    }
}

/// Takes the next argument, and returns the name of its octets.
fn name_of(alloc: Global, row: &mut Row<'_>) -> Result<Owned, RowError> {
    match UncertainName::from_octets(row.octets(alloc)?) {
        Ok(name) => Ok(name),
        Err(_) => Err(RowError::BadWord),
    }
}

/// Takes the next argument, and returns the absolute name of its octets.
fn absolute_of(alloc: Global, row: &mut Row<'_>) -> Result<Name<Vec<u8>>, RowError> {
    match Name::from_octets(row.octets(alloc)?) {
        Ok(name) => Ok(name),
        Err(_) => Err(RowError::BadWord),
    }
}

/// Writes the octets of each label.
fn labels<N: ToLabelIter>(name: &N, out: &mut Answer) -> Result<(), RowError> {
    for label in name.iter_labels() {
        out.octets(label.as_slice())?;
    }
    Ok(())
}

fn hashed(name: &Owned) -> u64 {
    let mut state = DefaultHasher::new();
    name.hash(&mut state);
    state.finish()
}

pub fn answer(alloc: Global, row: &mut Row<'_>, out: &mut Answer) -> Result<(), RowError> {
    match row.call() {
        "UncertainName::from_str" => {
            let text = row.text(alloc)?;
            name_or(out, UncertainName::from_str(alloc, text.as_str()))
        }
        "UncertainName::from_chars" => {
            let text = row.text(alloc)?;
            name_or(out, UncertainName::from_chars(alloc, text.as_str().chars()))
        }
        "UncertainName::from_octets" => name_or(
            out,
            UncertainName::from_octets(row.octets(alloc)?),
        ),
        _ => answer_method(alloc, row, out),
    }
}

/// Answers a method of a name.
fn answer_method(alloc: Global, row: &mut Row<'_>, out: &mut Answer) -> Result<(), RowError> {
    let name = name_of(alloc, row)?;
    match row.call() {
        "UncertainName::compose_len" => out.shown(&name.compose_len()),
        "UncertainName::iter_labels" => labels(&name, out),
        "UncertainName::into_absolute" => match name.into_absolute() {
            Ok(name) => out.octets(name.as_slice()),
            Err(error) => out.refused(&error),
        },
        "UncertainName::try_into_absolute" => match name.try_into_absolute() {
            Ok(name) => out.shown(&name),
            Err(_) => out.shown(&"refused"),
        },
        "UncertainName::try_into_relative" => match name.try_into_relative() {
            Ok(name) => out.shown(&name),
            Err(_) => out.shown(&"refused"),
        },
        _ => answer_pair(alloc, &name, row, out),
    }
}

/// Answers a method of two names; for `eq` also whether they have the same hash.
fn answer_pair(
    alloc: Global,
    name: &Owned,
    row: &mut Row<'_>,
    out: &mut Answer,
) -> Result<(), RowError> {
    let other = name_of(alloc, row)?;
    match row.call() {
        "UncertainName::eq" => {
            out.shown(&(*name == other))?;
            out.shown(&(hashed(name) == hashed(&other)))
        }
        "UncertainName::starts_with" => out.shown(&name.starts_with(&other)),
        "UncertainName::ends_with" => out.shown(&name.ends_with(&other)),
        _ => Err(RowError::UnknownCall),
    }
}

/// Answers a method of a name with an absolute suffix.
pub fn answer_chain(alloc: Global, row: &mut Row<'_>, out: &mut Answer) -> Result<(), RowError> {
    let name = name_of(alloc, row)?;
    let chain = match name.chain(absolute_of(alloc, row)?) {
        Ok(chain) => chain,
        Err(error) => return out.refused(&error),
    };
    match row.call() {
        "UncertainChain::display" => out.shown(&chain),
        "UncertainChain::fmt_with_dot" => out.shown(&chain.fmt_with_dot()),
        "UncertainChain::compose_len" => out.shown(&chain.compose_len()),
        "UncertainChain::to_vec" => out.octets(chain.to_vec(alloc)?.as_slice()),
        "UncertainChain::as_flat_slice" => match chain.as_flat_slice() {
            Some(octets) => out.octets(octets),
            None => out.shown(&"None"),
        },
        "UncertainChain::iter_labels" => labels(&chain, out),
        "UncertainChain::starts_with" => out.shown(&chain.starts_with(&name_of(alloc, row)?)),
        "UncertainChain::ends_with" => out.shown(&chain.ends_with(&name_of(alloc, row)?)),
        "UncertainChain::name_eq" => out.shown(&chain.name_eq(&absolute_of(alloc, row)?)),
        _ => Err(RowError::UnknownCall),
    }
}
