//! Questions as text, and conversions to other octets.
ghost use Rattle.std.specs.Prelude.{◌∷◌, ◌++◌, Some};
ghost use Rattle.dns_label.specs.Printed.{printed_name};
ghost use Rattle.dns_values.specs.Mnemonic.{class_written, type_written};
ghost use Rattle.dns_header.specs.QuestionParts.{qname_of, IsConverted};

use super::Question;
use dns_name::{AppendError, OctetsFrom, ToName};
use std::alloc::Global;
use std::fmt;

/// Writes the name with its final dot, the type and the class, with a tab between them.
impl<N: ToName> fmt::Display for Question<N> {
    ghost output = { λ question. Some (printed_name (N.name (qname_of question))
        ++ 9 ∷ type_written question.qtype ++ 9 ∷ class_written question.qclass) };

    fn fmt<W: fmt::Write>(&self, f: &mut fmt::Formatter<W>) -> fmt::Result {
        let name = self.qname.fmt_with_dot();
        write!(f, "{}\t{}\t{}", name, self.qtype, self.qclass)
    }
}

/// Converts the name to other octets; the type and the class stay.
impl<Source, N: OctetsFrom<Source>> OctetsFrom<Question<Source>> for Question<N> {
    ghost octets_from_gives = { IsConverted N.octets_from_gives };

    fn try_octets_from(alloc: Global, source: Question<Source>) -> Result<Self, AppendError> {
        let qname = N::try_octets_from(alloc, source.qname)?;
        Ok(Question::new(qname, source.qtype, source.qclass))
    }
}
