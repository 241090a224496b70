//! Records that are written behind their owner as they are stored.
ghost use Rattle.std.specs.Prelude.{◌≡◌};
ghost use Rattle.dns_name.specs.Page.Parts.{End, Octets};
ghost use Rattle.zone_send.specs.SpelledSending.{may_have_pointer as spec_may_have_pointer};

use dns_header::{ComposeRecord, compose_head};
use dns_name::{AppendError, Composer, Rtype};
use zone_records::record::Record;

/// A stored record whose data has no name that may be written with a pointer. Only its owner is; all behind it is copied.
#[derive(Drop)]
pub(crate) struct OpaqueRecord<'a> {
    pub(crate) inner: &'a Record<'a>,
}

impl ComposeRecord for OpaqueRecord<'_> {
    ghost written = { λ opaque. let r = opaque.inner.now in
        record { owner = r.owner; rtype = r.rtype; class = r.class; ttl = r.ttl; rdata = Octets r.rdata End } };

    fn compose_record<Target: Composer>(&self, target: &mut Target) -> Result<(), AppendError> {
        let owner = self.inner.owner();
        compose_head(&owner, &self.inner.as_octets()[owner.len()..], target)
    }
}

/// Returns whether data of the type has a name that may be written with a pointer (RFC 3597 4).
pub(crate) fn may_have_pointer(rtype: Rtype) -> bool
    ensures { result ≡ spec_may_have_pointer rtype }
{
    rtype == Rtype::NS
        || rtype == Rtype::MD
        || rtype == Rtype::MF
        || rtype == Rtype::CNAME
        || rtype == Rtype::SOA
        || rtype == Rtype::MB
        || rtype == Rtype::MG
        || rtype == Rtype::MR
        || rtype == Rtype::PTR
        || rtype == Rtype::MINFO
        || rtype == Rtype::MX
}
