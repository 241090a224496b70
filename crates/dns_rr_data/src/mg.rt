//! Data of type MG (RFC 1035 3.3.6).
ghost use Rattle.std.specs.Prelude.{◌≡◌, [], ◌∷◌, Some};
ghost use Rattle.std.proofs.Common.{refl};
ghost use Rattle.dns_fields.specs.Fields.{compressible, field_at};

use crate::{NameRow, Number, RowData, RowOf};
use dns_name::ToName;

/// A mailbox that is in the mail group of the owner.
pub type Mg<N> = RowData<Number<8>, NameRow<N>>;

impl<N: ToName> RowOf<Number<8>> for NameRow<N> {
    ghost of_type = { refl };
}

impl<N: ToName> RowData<Number<8>, NameRow<N>> {
    /// Returns the mailbox, written as a name.
    pub fn madname(&self) -> &N
        ensures { field_at 0 self.now ≡ Some (compressible (N.name result.now)) }
    {
        let (madname, ()) = &self.row;
        &madname.0
    }

    /// Returns the name itself.
    pub fn into_madname(self) -> N
        ensures { self ≡ compressible (N.name result) ∷ [] }
    {
        let (madname, ()) = self.row;
        madname.0
    }
}
