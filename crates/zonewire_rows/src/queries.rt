//! Queries.
use dns_name::{Class, FromStrError, Name, ToName};
use rows::{Answer, Row, RowError};
use std::alloc::Global;
use zonewire::{axfr_query, check_query};

/// Answers `check_query OCTETS`: the ID, whether recursion is desired, the name and the class.
pub fn answer(alloc: Global, row: &mut Row<'_>, out: &mut Answer) -> Result<(), RowError> {
    let octets = row.octets(alloc)?;
    match check_query(octets.as_slice()) {
        Ok(query) => {
            out.shown(&query.id())?;
            out.shown(&query.rd())?;
            out.shown(&query.name().fmt_with_dot())?;
            out.shown(&query.class())
        }
        Err(error) => out.refused(&error),
    }
}

/// Answers `axfr_query ID CLASS NAME`: the octets of the query.
pub fn answer_axfr(alloc: Global, row: &mut Row<'_>, out: &mut Answer) -> Result<(), RowError> {
    let id = row.value()?;
    let Some(class) = Class::from_bytes(row.word()?.as_bytes()) else {
        return Err(RowError::BadWord);
    };
    let name = name_of(alloc, row)?;
    let query = axfr_query(alloc, id, class, &name.for_ref())?;
    out.octets(query.as_slice())
}

/// Takes the next argument as a name.
pub fn name_of(alloc: Global, row: &mut Row<'_>) -> Result<Name<Vec<u8>>, RowError> {
    match Name::vec_from_str(alloc, row.word()?) {
        Ok(name) => Ok(name),
        Err(FromStrError::ShortBuf) => Err(RowError::OutOfMemory),
        Err(_) => Err(RowError::BadWord),
    }
}
