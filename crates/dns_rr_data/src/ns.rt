//! Data of type NS (RFC 1035 3.3.11).
ghost use Rattle.std.specs.Prelude.{◌≡◌, [], ◌∷◌, Some};
ghost use Rattle.std.proofs.Common.{refl};
ghost use Rattle.dns_fields.specs.Fields.{compressible, field_at};

use crate::{NameRow, Number, RowData, RowOf};
use dns_name::ToName;

/// A host that has the zone of the owner.
pub type Ns<N> = RowData<Number<2>, NameRow<N>>;

impl<N: ToName> RowOf<Number<2>> for NameRow<N> {
    ghost of_type = { refl };
}

impl<N: ToName> RowData<Number<2>, NameRow<N>> {
    /// Returns the name of the host.
    pub fn nsdname(&self) -> &N
        ensures { field_at 0 self.now ≡ Some (compressible (N.name result.now)) }
    {
        let (nsdname, ()) = &self.row;
        &nsdname.0
    }

    /// Returns the name itself.
    pub fn into_nsdname(self) -> N
        ensures { self ≡ compressible (N.name result) ∷ [] }
    {
        let (nsdname, ()) = self.row;
        nsdname.0
    }
}
