//! Data of type MINFO (RFC 1035 3.3.7).
ghost use Rattle.std.specs.Prelude.{◌≡◌, [], ◌∷◌, Some};
ghost use Rattle.std.proofs.Common.{refl};
ghost use Rattle.dns_fields.specs.Fields.{compressible, field_at};

use crate::{FlattenData, HasType, Number, ParseData, RowData, RowOf, ScanData, TypedData};
use dns_fields::Compressible;
use dns_name::{
    AppendError, EmptyBuilder, FlattenInto, FromBuilder, Name, ParseError, ParsedName, Parser,
    ToName,
};
use dns_text::Scanner;
use std::alloc::Global;
use std::marker::PhantomData;

/// Who is responsible for a mailing list or a mailbox.
pub type Minfo<N> = RowData<Number<14>, MinfoRow<N>>;

/// The fields of MINFO data: two mailboxes (RFC 1035 3.3.7).
pub type MinfoRow<N> = (Compressible<N>, (Compressible<N>, ()));

impl<N: ToName> RowOf<Number<14>> for MinfoRow<N> {
    ghost of_type = { refl };
}

impl<N: ToName> RowData<Number<14>, MinfoRow<N>> {
    /// Returns the data of two mailboxes, each written as a name.
    pub fn new(rmailbx: N, emailbx: N) -> Self
        ensures { result ≡ compressible (N.name rmailbx) ∷ compressible (N.name emailbx) ∷ [] }
    {
        RowData {
            row: (Compressible(rmailbx), (Compressible(emailbx), ())),
            rtype: PhantomData,
        }
    }

    /// Returns the mailbox of who is responsible.
    pub fn rmailbx(&self) -> &N
        ensures { field_at 0 self.now ≡ Some (compressible (N.name result.now)) }
    {
        let (rmailbx, _) = &self.row;
        &rmailbx.0
    }

    /// Returns the mailbox that is told of errors.
    pub fn emailbx(&self) -> &N
        ensures { field_at 1 self.now ≡ Some (compressible (N.name result.now)) }
    {
        let (_, (emailbx, ())) = &self.row;
        &emailbx.0
    }
}

impl<N: ToName> HasType for Minfo<N> {
    type Type = Number<14>;

    ghost held = { λ rdata. rdata };
}

impl<N: ToName> TypedData for Minfo<N> {
    type Row = MinfoRow<N>;

    fn typed_row(&self) -> &MinfoRow<N> {
        &self.row
    }
}

impl<'a> ParseData<'a> for Minfo<ParsedName<&'a [u8]>> {
    fn parse_data(parser: &mut Parser<'a>) -> Result<Self, ParseError> {
        Minfo::parse(parser)
    }
}

impl<N: ToName + Drop, S: Scanner<Name = N>> ScanData<S> for Minfo<N> {
    fn scan_data(scanner: &mut S) -> Result<Self, S::Error> {
        Minfo::scan(scanner)
    }
}

impl<N: ToName + Drop, Octs: FromBuilder + Drop> FlattenData<Octs> for Minfo<N>
where
    Octs::Builder: EmptyBuilder + Drop,
{
    type Flat = Minfo<Name<Octs>>;

    fn flatten_data(self, alloc: Global) -> Result<Minfo<Name<Octs>>, AppendError> {
        self.try_flatten_into(alloc)
    }
}
