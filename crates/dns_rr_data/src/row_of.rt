//! Types of data, and which row of fields each has.
ghost use Rattle.std.specs.Prelude.{◌≡◌, ℕ, Some};
ghost use Rattle.std.proofs.Common.{refl};
ghost use Rattle.dns_fields.specs.Fields.{kinds_of};

use dns_fields::HasFields;

/// What stands for a type of data.
pub trait DataType {
    ghost number: { ℕ };

    /// Returns the number of the type.
    fn number() -> u16
        ensures { result ≡ number };
}

/// Stands for the type of this number.
#[derive(Debug, Drop)]
pub struct Number<const RTYPE: u16> {}

impl<const RTYPE: u16> DataType for Number<RTYPE> {
    ghost number = { RTYPE };

    fn number() -> u16 {
        RTYPE
    }
}

/// A row of the fields that data of the type has.
pub trait RowOf<T: DataType>: HasFields {
    ghost of_type: { kinds_of T.number ≡ Some Self.kinds };
}
