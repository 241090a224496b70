//! Names as tokens: a dot after each label, and the root as a dot.
ghost use Rattle.std.specs.Prelude.{[], ◌∷◌, ◌++◌, OnOk};
ghost use Rattle.dns_label.specs.Printed.{printed_name};
ghost use Rattle.dns_name.specs.ChainParts.{left_of, right_of};
ghost use Rattle.dns_name.specs.ParsedName.{labels_in};
ghost use Rattle.dns_text.specs.Document.Piece.{Token};
ghost use Rattle.dns_text.specs.Writing.{Adds};

use crate::formatter::Formatter;
use crate::zonefile_fmt::ZonefileFmt;
use dns_name::{Chain, Name, Octets, ParsedName, ToName, ToRelativeName};
use std::fmt;

/// Writes a name as a token.
fn write_name<N: ToName, F: Formatter>(formatter: &mut F, name: &N) -> fmt::Result
    ensures { OnOk result (Adds F.writes formatter.old (Token (printed_name (N.name name.now)) ∷ []) formatter.new) }
{
    formatter.write_token(name.fmt_with_dot())
}

impl<Octs: Octets> ZonefileFmt for Name<Octs> {
    ghost document = { λ name. Token (printed_name name) ∷ [] };

    fn fmt<F: Formatter>(&self, formatter: &mut F) -> fmt::Result {
        write_name(formatter, self)
    }
}

impl<Octs: Octets> ZonefileFmt for ParsedName<Octs> {
    ghost document = { λ name. Token (printed_name (labels_in Octs.list name)) ∷ [] };

    fn fmt<F: Formatter>(&self, formatter: &mut F) -> fmt::Result {
        write_name(formatter, self)
    }
}

impl<L: ToRelativeName, R: ToName> ZonefileFmt for Chain<L, R> {
    ghost document = { λ chain. Token (printed_name (L.labels (left_of chain) ++ R.name (right_of chain))) ∷ [] };

    fn fmt<F: Formatter>(&self, formatter: &mut F) -> fmt::Result {
        write_name(formatter, self)
    }
}
