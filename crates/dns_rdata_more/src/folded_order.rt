//! How further data compares and hashes: field by field, names and character strings up to ASCII case, salts and hashes octet for
//! octet.
ghost use Rattle.std.specs.Prelude.{◌≡◌, fold};
ghost use Rattle.std.specs.Cmp.Lexicographic.{slice_cmp};
ghost use Rattle.std.specs.Ordering.{nat_cmp};
ghost use Rattle.dns_octets.specs.Parser.{rest_of};
ghost use Rattle.dns_fields.specs.Alike.{folded, keys, rows_cmp};
ghost use Rattle.dns_fields.specs.Fields.{field_octets};
ghost use Rattle.dns_fields_more.specs.Forms.{IsFurtherData};
ghost use Rattle.dns_fields_more.specs.Rows.{EndWell, StandAs};
ghost use Rattle.dns_fields_more.specs.Values.{field_of};
ghost use Rattle.dns_fields_more.specs.declared.form.Form.{Form};
ghost use Rattle.dns_rdata_more.specs.Folded.{folded_octets, folded_string};
ghost use Rattle.dns_rdata_more.specs.FurtherData.{compared, compared_read, compared_row};

use crate::canonical_order::cmp_lower;
use dns_fields::FieldValue;
use dns_fields_more::{Form, Value, field_len, forms_of};
use dns_name::{Parser, Rtype, ToName};
use std::cmp::Ordering;
use std::hash::Hasher;

/// Compares data of the further type with other data of it.
pub(crate) fn further_cmp(rtype: Rtype, octets: &[u8], others: &[u8]) -> Ordering
    requires these { IsFurtherData rtype octets.now }
    requires those { IsFurtherData rtype others.now }
    ensures { result ≡ rows_cmp (compared_row rtype octets.now) (compared_row rtype others.now) }
{
    let Some(forms) = forms_of(rtype) else {
        unreachable!();
    };
    fields_cmp(forms, octets, others)
}

/// Compares fields of the forms.
#[tactic(auto, unfolding(dns_fields::specs::Alike::rows_cmp))]
fn fields_cmp(forms: &[Form], octets: &[u8], others: &[u8]) -> Ordering
    requires well { EndWell forms.now }
    requires these { StandAs forms.now octets.now }
    requires those { StandAs forms.now others.now }
    ensures { result ≡ rows_cmp (compared_read forms.now octets.now) (compared_read forms.now others.now) }
{
    let Some((form, left)) = forms.split_first() else {
        return Ordering::Equal;
    };
    let (first, behind) = octets.split_at(field_len(*form, octets));
    let (other, beyond) = others.split_at(field_len(*form, others));
    match field_cmp(*form, first, other) {
        Ordering::Less => Ordering::Less,
        Ordering::Greater => Ordering::Greater,
        Ordering::Equal => fields_cmp(left, behind, beyond),
    }
}

/// Compares the octets of two fields of the form, in lower case where case doesn't count.
fn field_cmp(form: Form, octets: &[u8], others: &[u8]) -> Ordering
    ensures { result ≡ slice_cmp nat_cmp (folded_octets form octets.now) (folded_octets form others.now) }
{
    match form {
        Form::Name | Form::CasedName => cmp_lower(octets, others),
        Form::String => cmp_strings(octets, others),
        _ => octets.cmp(others),
    }
}

/// Compares two character strings, each after its length: the shorter comes first, and strings of one length compare up to ASCII case.
fn cmp_strings(octets: &[u8], others: &[u8]) -> Ordering
    ensures { result ≡ slice_cmp nat_cmp (folded_string octets.now) (folded_string others.now) }
{
    match (octets.split_first(), others.split_first()) {
        (Some((len, text)), Some((other_len, other))) => match len.cmp(other_len) {
            Ordering::Equal => cmp_lower(text, other),
            unequal => unequal,
        },
        (None, Some(_)) => Ordering::Less,
        (Some(_), None) => Ordering::Greater,
        (None, None) => Ordering::Equal,
    }
}

/// Hashes data of the further type.
pub(crate) fn hash_further<H: Hasher>(rtype: Rtype, octets: &[u8], state: &mut H)
    requires { IsFurtherData rtype octets.now }
    ensures { state.new ≡ fold H.write state.old (keys (compared_row rtype octets.now)) }
{
    let Some(forms) = forms_of(rtype) else {
        unreachable!();
    };
    hash_fields(forms, Parser::from_ref(octets), state);
}

/// Hashes fields of the forms, which are what is left of the octets.
fn hash_fields<H: Hasher>(forms: &[Form], mut parser: Parser<'_>, state: &mut H)
    requires well { EndWell forms.now }
    requires row { StandAs forms.now (rest_of parser) }
    ensures { state.new ≡ fold H.write state.old (keys (compared_read forms.now (rest_of parser.entry))) }
{
    let Some((form, others)) = forms.split_first() else {
        return;
    };
    let octets = parser.peek_all();
    match Value::parse(*form, &mut parser) {
        Ok(value) => {
            let first = &octets[..octets.len().saturating_sub(parser.remaining())];
            hash_field(*form, first, &value, state);
            hash_fields(others, parser, state);
        }
        Err(_) => unreachable!(),
    }
}

/// Hashes a field of the form, which has these octets: a salt or hash as it is, any other field in lower case where case doesn't
/// count.
fn hash_field<H: Hasher>(form: Form, octets: &[u8], value: &Value<'_>, state: &mut H)
    requires { octets.now ≡ field_octets (field_of form value.now) }
    ensures { state.new ≡ H.write state.old (field_octets (folded (compared form (field_of form value.now)))) }
{
    match form {
        Form::Salt | Form::Hash => state.write(octets),
        _ => hash_value(value, state),
    }
}

/// Hashes a field that is no salt or hash, in lower case where case doesn't count.
fn hash_value<H: Hasher>(value: &Value<'_>, state: &mut H)
    ensures { (form : Form) → state.new ≡ H.write state.old (field_octets (folded (field_of form value.now))) }
{
    match value {
        Value::Number8(number) => state.write(&[*number]),
        Value::Number16(number) => state.write(&number.to_be_bytes()),
        Value::Number32(number) => state.write(&number.to_be_bytes()),
        Value::Name(name) => name.name_hash(state),
        Value::String(string) => string.hash_field(state),
        Value::Rest(octets) => state.write(octets),
    }
}
