//! Data of type MR (RFC 1035 3.3.8).
ghost use Rattle.std.specs.Prelude.{◌≡◌, [], ◌∷◌, Some};
ghost use Rattle.std.proofs.Common.{refl};
ghost use Rattle.dns_fields.specs.Fields.{compressible, field_at};

use crate::{NameRow, Number, RowData, RowOf};
use dns_name::ToName;

/// The mailbox that has taken the place of the owner.
pub type Mr<N> = RowData<Number<9>, NameRow<N>>;

impl<N: ToName> RowOf<Number<9>> for NameRow<N> {
    ghost of_type = { refl };
}

impl<N: ToName> RowData<Number<9>, NameRow<N>> {
    /// Returns the mailbox, written as a name.
    pub fn newname(&self) -> &N
        ensures { field_at 0 self.now ≡ Some (compressible (N.name result.now)) }
    {
        let (newname, ()) = &self.row;
        &newname.0
    }

    /// Returns the name itself.
    pub fn into_newname(self) -> N
        ensures { self ≡ compressible (N.name result) ∷ [] }
    {
        let (newname, ()) = self.row;
        newname.0
    }
}
