//! Data of type SVCB (RFC 9460 2).
ghost use Rattle.std.specs.Prelude.{⊤, [], ◌∷◌};
ghost use Rattle.dns_fields.specs.Fields.{number16, rest16, uncompressed};
ghost use Rattle.dns_service_parameters.specs.Service.{HoldsParameters};
ghost use Rattle.dns_rdata_more.specs.Built.{MakesIf};
ghost use Rattle.dns_rdata_more.specs.FurtherData.{IsFieldAt};

use crate::build::{build, last_value, name_value};
use crate::{BuildError, FurtherData};
use dns_fields_more::{Form, Value};
use dns_name::{Name, Octets};
use dns_rr_data::Number;
use std::alloc::Global;

/// Where a service is, and how it is reached.
pub type Svcb<Octs> = FurtherData<Number<64>, Octs>;

impl<Octs: Octets> FurtherData<Number<64>, Octs> {
    /// Returns the place of the service: the lowest number comes first, and 0 makes an alias.
    pub fn priority(&self) -> u16
        ensures { IsFieldAt 64 self.now 0 (number16 result) }
    {
        self.number16_at(0)
    }

    /// Returns the name of the host, or the root for the owner itself.
    pub fn target(&self) -> Name<&[u8]>
        ensures { IsFieldAt 64 self.now 1 (uncompressed result) }
    {
        self.name_at(1)
    }

    /// Returns the parameters of the service, as they are on the wire.
    pub fn params(&self) -> &[u8]
        ensures { IsFieldAt 64 self.now 2 (rest16 result.now) }
    {
        self.rest16_at(2)
    }
}

impl FurtherData<Number<64>, Vec<u8>> {
    /// Returns the data of a service and its parameters on the wire.
    ///
    /// Fails with `BadField` exactly if the octets are no parameters, with `LongRecordData` only if the data would have more than
    /// 65,535 octets, and otherwise with `OutOfMemory`, if out of memory.
    pub fn new<'a, N: Octets>(
        alloc: Global,
        priority: u16,
        target: &'a Name<N>,
        params: &'a [u8],
    ) -> Result<Self, BuildError>
        ensures { MakesIf ⊤ (HoldsParameters params.now) (number16 priority ∷ uncompressed target.now
            ∷ rest16 params.now ∷ []) result }
    {
        let params = last_value(Form::Parameters, params)?;
        build(
            alloc,
            &[Value::Number16(priority), name_value(target), params],
        )
    }
}
