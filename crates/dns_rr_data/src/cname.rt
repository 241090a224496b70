//! Data of type CNAME (RFC 1035 3.3.1).
ghost use Rattle.std.specs.Prelude.{◌≡◌, [], ◌∷◌, Some};
ghost use Rattle.std.proofs.Common.{refl};
ghost use Rattle.dns_fields.specs.Fields.{compressible, field_at};

use crate::{NameRow, Number, RowData, RowOf};
use dns_name::ToName;

/// The name that the owner is another name of.
pub type Cname<N> = RowData<Number<5>, NameRow<N>>;

impl<N: ToName> RowOf<Number<5>> for NameRow<N> {
    ghost of_type = { refl };
}

impl<N: ToName> RowData<Number<5>, NameRow<N>> {
    /// Returns the name that the owner stands for.
    pub fn cname(&self) -> &N
        ensures { field_at 0 self.now ≡ Some (compressible (N.name result.now)) }
    {
        let (cname, ()) = &self.row;
        &cname.0
    }

    /// Returns the name itself.
    pub fn into_cname(self) -> N
        ensures { self ≡ compressible (N.name result) ∷ [] }
    {
        let (cname, ()) = self.row;
        cname.0
    }
}
