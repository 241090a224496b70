//! The query for a zone's transfer, as TCP sends it.
ghost use Rattle.std.specs.Prelude.{◌≡◌, IfOk, false};
ghost use Rattle.zone_core.specs.Query.{query_octets};
ghost use Rattle.zone_tool.specs.Framed.{framed};

use dns_name::{Class, Name};
use std::alloc::{AllocError, Global};
use zone_core::axfr_query;

/// Returns the query for the transfer of the zone with this name and class (RFC 5936 2.1), after its length, as TCP
/// sends it (RFC 1035 4.2.2). Fails if out of memory.
pub fn framed_query(
    alloc: Global,
    id: u16,
    class: Class,
    apex: &Name<&[u8]>,
) -> Result<Vec<u8>, AllocError>
    ensures { IfOk result (λ octets. octets.items
        ≡ framed (query_octets (record { id = id; recursion = false; name = apex.now; class = class }))) }
{
    // This shows the proof that the apex is a name.
    let _octets = apex.as_slice();
    let query = axfr_query(alloc, id, class, apex)?;
    let mut octets = Vec::from_slice(alloc, &(query.len() as u16).to_be_bytes())?;
    octets.extend_from_slice(query.as_slice())?;
    Ok(octets)
}
