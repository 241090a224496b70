//! The octets between tokens.
ghost use Rattle.std.specs.Prelude.{◌≡◌};
ghost use Rattle.dns_scan.specs.Token.{ends_white, is_white};

/// Returns whether the last of the octets is white space.
pub(crate) fn ends_white(octets: &[u8]) -> bool
    ensures { result ≡ ends_white octets.now }
{
    let Some((&last, _)) = octets.split_last() else {
        return false;
    };
    is_white(last)
}

/// Returns whether the octet is white space.
fn is_white(octet: u8) -> bool
    ensures { result ≡ is_white octet }
{
    matches!(octet, b' ' | b'\t' | b'\n' | b'\r')
}
