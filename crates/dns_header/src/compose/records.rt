//! What can be written as a record.
ghost use Rattle.dns_header.specs.Written.{written_of};

use super::{ComposeRecord, compose_parts};
use crate::Record;
use dns_name::{AppendError, Class, ComposeRecordData, Composer, ToName, Ttl};

impl<R: ComposeRecord> ComposeRecord for &R {
    ghost written = { λ rr. R.written rr.now };

    fn compose_record<Target: Composer>(&self, target: &mut Target) -> Result<(), AppendError> {
        (*self).compose_record(target)
    }
}

impl<N: ToName, Data: ComposeRecordData> ComposeRecord for Record<N, Data> {
    ghost written = { written_of N.name Data.rtype Data.parts };

    fn compose_record<Target: Composer>(&self, target: &mut Target) -> Result<(), AppendError> {
        self.compose(target)
    }
}

/// Owner, class, TTL in seconds, data.
impl<N: ToName, Data: ComposeRecordData> ComposeRecord for (N, Class, u32, Data) {
    ghost written = { λ rr. record { owner = N.name rr.0; rtype = Data.rtype rr.3; class = rr.1; ttl = rr.2; rdata = Data.parts rr.3 } };

    fn compose_record<Target: Composer>(&self, target: &mut Target) -> Result<(), AppendError> {
        compose_parts(&self.0, self.1, Ttl::from_secs(self.2), &self.3, target)
    }
}

/// Owner, class, TTL, data.
impl<N: ToName, Data: ComposeRecordData> ComposeRecord for (N, Class, Ttl, Data) {
    ghost written = { λ rr. record { owner = N.name rr.0; rtype = Data.rtype rr.3; class = rr.1; ttl = rr.2; rdata = Data.parts rr.3 } };

    fn compose_record<Target: Composer>(&self, target: &mut Target) -> Result<(), AppendError> {
        compose_parts(&self.0, self.1, self.2, &self.3, target)
    }
}

/// Owner, TTL in seconds, data; of class IN.
impl<N: ToName, Data: ComposeRecordData> ComposeRecord for (N, u32, Data) {
    ghost written = { λ rr. record { owner = N.name rr.0; rtype = Data.rtype rr.2; class = 1; ttl = rr.1; rdata = Data.parts rr.2 } };

    fn compose_record<Target: Composer>(&self, target: &mut Target) -> Result<(), AppendError> {
        compose_parts(&self.0, Class::IN, Ttl::from_secs(self.1), &self.2, target)
    }
}

/// Owner, TTL, data; of class IN.
impl<N: ToName, Data: ComposeRecordData> ComposeRecord for (N, Ttl, Data) {
    ghost written = { λ rr. record { owner = N.name rr.0; rtype = Data.rtype rr.2; class = 1; ttl = rr.1; rdata = Data.parts rr.2 } };

    fn compose_record<Target: Composer>(&self, target: &mut Target) -> Result<(), AppendError> {
        compose_parts(&self.0, Class::IN, self.1, &self.2, target)
    }
}
