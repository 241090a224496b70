//! The same fields, held in octets of another kind.
ghost use Rattle.std.specs.Prelude.{◌≡◌, Err, false, length, IfOk, IsOk};
ghost use Rattle.dns_octets.specs.Builder.{IsPast};
ghost use Rattle.dns_octets.specs.declared.error.AppendError.TheVariants.{ShortBuf, BadLength};
ghost use Rattle.dns_fields.specs.Held.{held_octets, holds_octets, hold_octets, OneIsPast};

mod held;
mod leaves;
mod rests;
mod strings;

use crate::{HasField, HasFields};
use dns_name::{AppendError, EmptyBuilder, FromBuilder};
pub use held::OverOctets;
use std::alloc::Global;

/// A field that is converted to one over octets of this kind.
pub trait ConvertField<T: HasField, Octs: FromBuilder>: HasField
where
    Octs::Builder: EmptyBuilder + Drop,
{
    /// Returns the same field over such octets. Fails with `ShortBuf` only if these can't hold as many, and with
    /// `OutOfMemory` only if out of memory. A number or an address is copied, and never fails.
    fn convert_field(&self, alloc: Global) -> Result<T, AppendError>
        ensures ok { IfOk result (λ converted. T.field converted ≡ Self.field self.now) }
        ensures short { result ≡ Err ShortBuf → IsPast Octs.Builder.limit (length (held_octets (Self.field self.now))) }
        ensures not_bad { result ≡ Err BadLength → ⊥ }
        ensures copied { holds_octets (Self.field self.now) ≡ false → IsOk result };
}

/// A row that is converted to one over octets of this kind.
pub trait ConvertRow<T: HasFields, Octs: FromBuilder>: HasFields
where
    Octs::Builder: EmptyBuilder + Drop,
{
    /// Returns the same fields over such octets. Fails with `ShortBuf` only if these can't hold as many as a field has, and
    /// with `OutOfMemory` only if out of memory. A row of numbers and addresses is copied, and never fails.
    fn convert_fields(&self, alloc: Global) -> Result<T, AppendError>
        ensures ok { IfOk result (λ converted. T.fields converted ≡ Self.fields self.now) }
        ensures short { result ≡ Err ShortBuf → OneIsPast Octs.Builder.limit (Self.fields self.now) }
        ensures not_bad { result ≡ Err BadLength → ⊥ }
        ensures copied { hold_octets (Self.fields self.now) ≡ false → IsOk result };
}

impl<Octs: FromBuilder> ConvertRow<(), Octs> for ()
where
    Octs::Builder: EmptyBuilder + Drop,
{
    fn convert_fields(&self, _alloc: Global) -> Result<(), AppendError> {
        Ok(())
    }
}

impl<A, B, C, D, Octs: FromBuilder> ConvertRow<(C, D), Octs> for (A, B)
where
    A: ConvertField<C, Octs>,
    B: ConvertRow<D, Octs>,
    C: HasField + Drop,
    D: HasFields,
    Octs::Builder: EmptyBuilder + Drop,
{
    fn convert_fields(&self, alloc: Global) -> Result<(C, D), AppendError> {
        let (first, others) = self;
        let converted = first.convert_field(alloc)?;
        Ok((converted, others.convert_fields(alloc)?))
    }
}
