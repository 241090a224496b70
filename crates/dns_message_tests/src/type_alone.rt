//! Record data that keeps only its type.
ghost use Rattle.std.specs.Prelude.{◌≡◌};

use dns_name::{ParseAnyRecordData, ParseError, Parser, RecordData, Rtype};

/// The type of data of any type.
#[derive(Clone, Copy)]
pub struct TypeAlone {
    rtype: Rtype,
}

impl TypeAlone {
    /// Returns the number of the type.
    pub fn number(self) -> u16 {
        self.rtype.to_int()
    }
}

impl RecordData for TypeAlone {
    ghost rtype = { λ found. found.rtype };

    fn rtype(&self) -> Rtype {
        self.rtype
    }
}

impl<'a> ParseAnyRecordData<'a> for TypeAlone {
    ghost reads_any = { λ _ _ rtype found. found.rtype ≡ rtype };

    fn parse_any_rdata(rtype: Rtype, parser: &mut Parser<'a>) -> Result<Self, ParseError> {
        parser.advance_to_end();
        Ok(TypeAlone { rtype })
    }
}
