//! Data of type PTR (RFC 1035 3.3.12).
ghost use Rattle.std.specs.Prelude.{◌≡◌, [], ◌∷◌, Some};
ghost use Rattle.std.proofs.Common.{refl};
ghost use Rattle.dns_fields.specs.Fields.{compressible, field_at};

use crate::{NameRow, Number, RowData, RowOf};
use dns_name::ToName;

/// A name that the owner points to.
pub type Ptr<N> = RowData<Number<12>, NameRow<N>>;

impl<N: ToName> RowOf<Number<12>> for NameRow<N> {
    ghost of_type = { refl };
}

impl<N: ToName> RowData<Number<12>, NameRow<N>> {
    /// Returns the name that the owner points to.
    pub fn ptrdname(&self) -> &N
        ensures { field_at 0 self.now ≡ Some (compressible (N.name result.now)) }
    {
        let (ptrdname, ()) = &self.row;
        &ptrdname.0
    }

    /// Returns the name itself.
    pub fn into_ptrdname(self) -> N
        ensures { self ≡ compressible (N.name result) ∷ [] }
    {
        let (ptrdname, ()) = self.row;
        ptrdname.0
    }
}
