//! Equality of records with unparsed data.
ghost use Rattle.std.specs.Cmp.{partial_equiv_from_equiv};
ghost use Rattle.dns_header.specs.ParsedRecord.{parsed_eq, parsed_equivalence};

use super::ParsedRecord;

/// Equal headers, owners compared up to ASCII case (RFC 4343), and the same octets of data. So names in the data are
/// equal only if they are spelled alike.
impl PartialEq for ParsedRecord<'_> {
    ghost eq = { parsed_eq };

    ghost laws = { partial_equiv_from_equiv parsed_equivalence };

    fn eq(&self, other: &Self) -> bool {
        self.header == other.header && self.data.peek_all() == other.data.peek_all()
    }
}

impl Eq for ParsedRecord<'_> {
    ghost laws = { parsed_equivalence };
}
