//! The canonical order of further data (RFC 4034 6.3).
ghost use Rattle.std.specs.Prelude.{◌≡◌, map};
ghost use Rattle.std.specs.Char.{to_ascii_lowercase};
ghost use Rattle.std.specs.Cmp.Lexicographic.{slice_cmp};
ghost use Rattle.std.specs.Ordering.{nat_cmp};
ghost use Rattle.dns_fields_more.specs.Forms.{IsFurtherData};
ghost use Rattle.dns_fields_more.specs.Rows.{EndWell, StandAs, form_lowered};
ghost use Rattle.dns_rdata_more.specs.FurtherData.{canonical_of, lowered_octets};

use dns_fields_more::{Form, field_len, forms_of};
use dns_name::Rtype;
use std::cmp::Ordering;

/// Compares data of the further type with other data of it, in canonical form.
pub(crate) fn canonical_further_cmp(rtype: Rtype, octets: &[u8], others: &[u8]) -> Ordering
    requires these { IsFurtherData rtype octets.now }
    requires those { IsFurtherData rtype others.now }
    ensures { result ≡ slice_cmp nat_cmp (canonical_of rtype octets.now) (canonical_of rtype others.now) }
{
    let Some(forms) = forms_of(rtype) else {
        unreachable!();
    };
    fields_cmp(forms, octets, others)
}

/// Compares fields of the forms in canonical form.
fn fields_cmp(forms: &[Form], octets: &[u8], others: &[u8]) -> Ordering
    requires well { EndWell forms.now }
    requires these { StandAs forms.now octets.now }
    requires those { StandAs forms.now others.now }
    ensures { result ≡ slice_cmp nat_cmp (lowered_octets forms.now octets.now) (lowered_octets forms.now others.now) }
{
    let Some((form, left)) = forms.split_first() else {
        return Ordering::Equal;
    };
    let (first, behind) = octets.split_at(field_len(*form, octets));
    let (other, beyond) = others.split_at(field_len(*form, others));
    match field_cmp(*form, first, other) {
        Ordering::Less => Ordering::Less,
        Ordering::Greater => Ordering::Greater,
        Ordering::Equal => fields_cmp(left, behind, beyond),
    }
}

/// Compares the octets of two fields of the form, in lower case if it is a name whose form asks for it.
fn field_cmp(form: Form, octets: &[u8], others: &[u8]) -> Ordering
    ensures { result ≡ slice_cmp nat_cmp (form_lowered form octets.now) (form_lowered form others.now) }
{
    match form {
        Form::Name => cmp_lower(octets, others),
        _ => octets.cmp(others),
    }
}

/// Compares octets as if ASCII letters were in lower case.
pub(crate) fn cmp_lower(octets: &[u8], others: &[u8]) -> Ordering
    ensures { result ≡ slice_cmp nat_cmp (map to_ascii_lowercase octets.now) (map to_ascii_lowercase others.now) }
{
    let mut left = octets;
    let mut right = others;
    loop {
        match (left.split_first(), right.split_first()) {
            (Some((first, behind)), Some((other, beyond))) => {
                match first.to_ascii_lowercase().cmp(&other.to_ascii_lowercase()) {
                    Ordering::Less => return Ordering::Less,
                    Ordering::Greater => return Ordering::Greater,
                    Ordering::Equal => {}
                }
                left = behind;
                right = beyond;
            }
            (None, Some(_)) => return Ordering::Less,
            (Some(_), None) => return Ordering::Greater,
            (None, None) => return Ordering::Equal,
        }
    }
}
