//! Data that is borrowed.
use super::{ComposeRecordData, RecordData};
use crate::Composer;
use dns_octets::AppendError;
use dns_values::Rtype;

impl<T: RecordData> RecordData for &T {
    ghost rtype = { λ rdata. T.rtype rdata.now };

    fn rtype(&self) -> Rtype {
        (**self).rtype()
    }
}

/// Writes what is borrowed.
impl<T: ComposeRecordData> ComposeRecordData for &T {
    ghost parts = { λ rdata. T.parts rdata.now };

    ghost canonical_octets = { λ rdata. T.canonical_octets rdata.now };

    fn rdlen(&self, compress: bool) -> Option<u16> {
        (**self).rdlen(compress)
    }

    fn compose_rdata<Target: Composer>(&self, target: &mut Target) -> Result<(), AppendError> {
        (**self).compose_rdata(target)
    }

    fn compose_canonical_rdata<Target: Composer>(
        &self,
        target: &mut Target,
    ) -> Result<(), AppendError> {
        (**self).compose_canonical_rdata(target)
    }
}
