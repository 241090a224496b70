//! Queries that own the name they ask for.
ghost use Rattle.std.specs.Prelude.{◌≡◌, IfOk};
ghost use Rattle.zone_core.specs.Asked.{asked_by};
ghost use Rattle.zone_receive.specs.Asked.{asked_of};

use dns_name::{Class, Name, ToName};
use std::alloc::{AllocError, Global};
use zone_core::Query;

/// A query for the transfer of a zone that does not borrow its message.
#[derive(Debug, Drop)]
pub(crate) struct OwnedQuery {
    pub(crate) id: u16,
    pub(crate) rd: bool,
    pub(crate) name: Name<Vec<u8>>,
    pub(crate) class: Class,
}

impl OwnedQuery {
    /// Returns the query with its name copied. Fails if out of memory.
    pub(crate) fn from_query(alloc: Global, query: &Query<'_>) -> Result<OwnedQuery, AllocError>
        ensures { IfOk result (λ owned. asked_of owned ≡ asked_by query.now) }
    {
        Ok(OwnedQuery {
            id: query.id(),
            rd: query.rd(),
            name: query.name().to_vec(alloc)?,
            class: query.class(),
        })
    }
}
