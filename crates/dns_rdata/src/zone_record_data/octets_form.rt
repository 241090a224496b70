//! Data of any type that is held as octets, every name in full: its canonical form (RFC 4034 6.2, 6.3).
ghost use Rattle.std.specs.Prelude.{◌≡◌, ◌≤◌, ◌++◌, List, ℕ, OnOk, length, take, drop};
ghost use Rattle.std.specs.Cmp.Lexicographic.{slice_cmp};
ghost use Rattle.std.specs.Ordering.{nat_cmp};
ghost use Rattle.dns_fields.specs.OctetsForm.{IsCanonicalData};

use dns_canonical_form::{canonical_rows_cmp, make_canonical_row};
use dns_name::Rtype;
use std::alloc::AllocError;
use std::cmp::Ordering;

/// The names and octets of the rows, which are never made: the data stays octets.
type N = ();

type Octs = &'static [u8];

/// The arms of `make_canonical_data`.
macro_rules! made_canonical {
    (($type:ident, $octets:ident) $($variant:ident = $rtype:ident: $row:ty,)*) => {
        match $type {
            $(Rtype::$rtype => make_canonical_row::<$row>($type, $octets),)*
            _ => {}
        }
    };
}

/// The arms of `canonical_data_cmp`.
macro_rules! compared {
    (($type:ident, $octets:ident, $others:ident) $($variant:ident = $rtype:ident: $row:ty,)*) => {
        match $type {
            $(Rtype::$rtype => canonical_rows_cmp::<$row>($type, $octets, $others),)*
            _ => $octets.cmp($others),
        }
    };
}

/// Appends data of the type in canonical form: with its names in lower case (RFC 4034 6.2). Unknown data is appended as it is.
/// Fails if out of memory.
pub fn append_canonical_data(
    rtype: Rtype,
    octets: &[u8],
    target: &mut Vec<u8>,
) -> Result<(), AllocError>
    ensures { (canonical : List ℕ) → IsCanonicalData rtype octets.now canonical
        → OnOk result (target.new.items ≡ target.old.items ++ canonical) }
{
    let start = target.len();
    target.extend_from_slice(octets)?;
    make_canonical_from(rtype, target.as_mut_slice(), start);
    Ok(())
}

/// Puts data of the type that begins at `start` in canonical form.
fn make_canonical_from(rtype: Rtype, octets: &mut [u8], start: usize)
    requires { start ≤ length octets.old }
    ensures { (canonical : List ℕ) → IsCanonicalData rtype (drop start octets.old) canonical
        → octets.new ≡ take start octets.old ++ canonical }
{
    let (_, behind) = octets.split_at_mut(start);
    make_canonical_data(rtype, behind);
}

/// Puts data of the type in canonical form.
fn make_canonical_data(rtype: Rtype, octets: &mut [u8])
    ensures { (canonical : List ℕ) → IsCanonicalData rtype octets.old canonical → octets.new ≡ canonical }
{
    with_types!(made_canonical, rtype, octets)
}

/// Compares data of one type in canonical form, by its octets (RFC 4034 6.3).
pub fn canonical_data_cmp(rtype: Rtype, octets: &[u8], others: &[u8]) -> Ordering
    ensures { (canonical other : List ℕ) → IsCanonicalData rtype octets.now canonical → IsCanonicalData rtype others.now other
        → result ≡ slice_cmp nat_cmp canonical other }
{
    with_types!(compared, rtype, octets, others)
}
