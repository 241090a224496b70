//! Comments that tell fields apart.
ghost use Rattle.std.specs.Prelude.{◌≡◌};
ghost use Rattle.dns_fields.specs.Comments.{texts};
ghost use Rattle.dns_fields.specs.Shown.{comments_of};

/// What the numbers of SOA data are (RFC 1035 3.3.13).
static SOA: [Option<&str>; 7] = [
    None,
    None,
    Some("serial"),
    Some("refresh"),
    Some("retry"),
    Some("expire"),
    Some("minimum"),
];

/// The comments after the fields of data of the type, from the left.
pub(super) fn comments_of(rtype: u16) -> &'static [Option<&'static str>]
    ensures { texts result.now ≡ comments_of rtype }
{
    if rtype == 6 { &SOA } else { &[] }
}
