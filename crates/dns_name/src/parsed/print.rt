//! Names in messages as text (RFC 1035 5.1).
ghost use Rattle.std.specs.Prelude.{Some};
ghost use Rattle.dns_label.specs.Printed.{printed_name};

use super::ParsedName;
use dns_flat::ToName;
use dns_octets::Octets;
use std::fmt;

/// Shows the name with a dot after each label; the root is a dot.
impl<Octs: Octets> fmt::Display for ParsedName<Octs> {
    ghost use Rattle.dns_name.specs.ParsedName.{labels_in};

    ghost output = { λ name. Some (printed_name (labels_in Octs.list name)) };

    fn fmt<W: fmt::Write>(&self, f: &mut fmt::Formatter<W>) -> fmt::Result {
        self.fmt_with_dot().fmt(f)
    }
}
