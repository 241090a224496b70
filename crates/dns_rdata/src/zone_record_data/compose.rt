//! Data of any type, written into messages.
ghost use Rattle.std.specs.Prelude.{◌≡◌, ◌++◌, ◌↔◌, Err, length, IfSome, IsNone, OnOk, OnErr};
ghost use Rattle.dns_name.specs.Page.{write};
ghost use Rattle.dns_name.specs.RecordData.{page_of, IsComposedLength, IsUntold};
ghost use Rattle.dns_octets.specs.Builder.{GrowsTo, IsPast};
ghost use Rattle.dns_octets.specs.declared.error.AppendError.TheVariants.{ShortBuf, BadLength};
ghost use Rattle.dns_rdata.specs.Data.{parts_of, canonical_of};
ghost use Rattle.dns_rdata.specs.ZoneData.{data_of};

use super::ZoneRecordData;
use super::visit::Visit;
use crate::rows::{compose_canonical_row, compose_row, row_len};
use dns_name::{AppendError, ComposeRecordData, Composer, Octets, ToName, UnknownRecordData};
use dns_rr_data::TypedData;

/// Writes the fields, or the opaque octets as they are.
impl<Octs: Octets, N: ToName> ComposeRecordData for ZoneRecordData<Octs, N> {
    ghost parts = { λ rdata. parts_of (data_of rdata) };

    ghost canonical_octets = { λ rdata. canonical_of (data_of rdata) };

    fn rdlen(&self, compress: bool) -> Option<u16> {
        let mut compress = compress;
        self.visit::<Length, bool>(&mut compress)
    }

    fn compose_rdata<Target: Composer>(&self, target: &mut Target) -> Result<(), AppendError> {
        self.visit::<Plain, Target>(target)
    }

    fn compose_canonical_rdata<Target: Composer>(
        &self,
        target: &mut Target,
    ) -> Result<(), AppendError> {
        self.visit::<Canonical, Target>(target)
    }
}

/// How many octets the data has, given whether names may be pointers.
pub struct Length;

impl Visit<bool> for Length {
    type Answer = Option<u16>;

    ghost answers = { λ compress rdata result _. IfSome result (λ len. IsComposedLength compress (parts_of rdata) len)
        × (IsNone result ↔ IsUntold compress (parts_of rdata)) };

    fn fields<D: TypedData>(rdata: &D, compress: &mut bool) -> Option<u16> {
        row_len(rdata.typed_row(), *compress)
    }

    fn unknown<Octs: Octets>(rdata: &UnknownRecordData<Octs>, compress: &mut bool) -> Option<u16> {
        rdata.rdlen(*compress)
    }
}

/// The data written.
pub struct Plain;

impl<Target: Composer> Visit<Target> for Plain {
    type Answer = Result<(), AppendError>;

    ghost answers = { λ old rdata result new.
        OnOk result (page_of (Target.list new) (Target.known new)
        ≡ write Target.spelling (page_of (Target.list old) (Target.known old)) (parts_of rdata))
        × OnErr result ((Target.list new ≡ Target.list old) × (Target.known new ≡ Target.known old))
        × GrowsTo (Target.list old) (Target.known old) (Target.list new) (Target.known new)
        × (result ≡ Err ShortBuf → IsPast (Target.bound old)
        (length (write Target.spelling (page_of (Target.list old) (Target.known old)) (parts_of rdata)).octets))
        × (result ≡ Err BadLength → ⊥)
        × (Target.bound new ≡ Target.bound old)
        × Target.stays old new };

    fn fields<D: TypedData>(rdata: &D, target: &mut Target) -> Result<(), AppendError> {
        compose_row(rdata.typed_row(), target)
    }

    fn unknown<Octs: Octets>(
        rdata: &UnknownRecordData<Octs>,
        target: &mut Target,
    ) -> Result<(), AppendError> {
        rdata.compose_rdata(target)
    }
}

/// The canonical form written.
pub struct Canonical;

impl<Target: Composer> Visit<Target> for Canonical {
    type Answer = Result<(), AppendError>;

    ghost answers = { λ old rdata result new.
        OnOk result (Target.list new ≡ Target.list old ++ canonical_of rdata)
        × OnErr result (Target.list new ≡ Target.list old)
        × (Target.known new ≡ Target.known old)
        × (result ≡ Err ShortBuf → IsPast (Target.bound old) (length (Target.list old ++ canonical_of rdata)))
        × (result ≡ Err BadLength → ⊥)
        × (Target.bound new ≡ Target.bound old)
        × Target.stays old new };

    fn fields<D: TypedData>(rdata: &D, target: &mut Target) -> Result<(), AppendError> {
        compose_canonical_row(rdata.typed_row(), target)
    }

    fn unknown<Octs: Octets>(
        rdata: &UnknownRecordData<Octs>,
        target: &mut Target,
    ) -> Result<(), AppendError> {
        rdata.compose_canonical_rdata(target)
    }
}
