//! What octets begin with.
ghost use Rattle.std.specs.Prelude.{◌≡◌, ◌++◌, IfOk, IfErr};
ghost use Rattle.dns_fields.specs.Prefix.{Decides};

use std::cmp::Ordering;

/// Returns what follows the prefix, if the octets begin with it, and otherwise how it compares, whatever follows it.
pub fn split_prefix<'a>(prefix: &[u8], octets: &'a [u8]) -> Result<&'a [u8], Ordering>
    ensures ok { IfOk result (λ behind. octets.now ≡ prefix.now ++ behind.now) }
    ensures err { IfErr result (Decides prefix.now octets.now) }
{
    match octets.strip_prefix(prefix) {
        Some(behind) => Ok(behind),
        None => Err(prefix.cmp(octets)),
    }
}
