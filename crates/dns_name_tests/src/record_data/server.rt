//! Data of one name (RFC 1035 3.3.11).
ghost use Rattle.std.specs.Prelude.{◌≡◌};
ghost use Rattle.dns_label.specs.Name.{low, wire};
ghost use Rattle.dns_name.specs.Page.Parts.{End, Named};

use dns_name::{AppendError, ComposeRecordData, Composer, RecordData, ToName};
use dns_values::Rtype;

/// The name of a server of a zone.
#[derive(Drop)]
pub struct Server<N> {
    name: N,
}

impl<N: ToName> Server<N> {
    /// Returns the server of this name.
    pub fn new(name: N) -> Self
        ensures { result ≡ record { name = name } }
    {
        Server { name }
    }
}

impl<N: ToName> RecordData for Server<N> {
    ghost rtype = { λ _. 2 };

    fn rtype(&self) -> Rtype {
        Rtype::from_int(2)
    }
}

/// The name may be compressed.
impl<N: ToName> ComposeRecordData for Server<N> {
    ghost parts = { λ rdata. Named (N.name rdata.name) End };

    ghost canonical_octets = { λ rdata. wire (low (N.name rdata.name)) };

    fn rdlen(&self, compress: bool) -> Option<u16> {
        if compress {
            return None;
        }
        Some(self.name.compose_len())
    }

    fn compose_rdata<Target: Composer>(&self, target: &mut Target) -> Result<(), AppendError> {
        target.append_compressed_name(&self.name)
    }

    fn compose_canonical_rdata<Target: Composer>(
        &self,
        target: &mut Target,
    ) -> Result<(), AppendError> {
        self.name.compose_canonical(target)
    }
}
