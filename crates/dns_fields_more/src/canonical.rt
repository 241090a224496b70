//! Data of further types in canonical form (RFC 4034 6.2).
ghost use Rattle.std.specs.Prelude.{◌≡◌, ◌≤◌, ℕ, List, length};
ghost use Rattle.dns_fields.specs.Fields.{Field, field_octets};
ghost use Rattle.dns_fields_more.specs.Forms.{IsFurtherCanonical};
ghost use Rattle.dns_fields_more.specs.Rows.{EndWell, LowersTo, form_lowered};
ghost use Rattle.dns_fields_more.specs.Values.{StandsIn};

use crate::{Form, Value, forms_of};
use dns_name::{Parser, Rtype};

/// Puts data of the further type in canonical form: its names are in lower case where their form asks for it (RFC 4034 6.2,
/// RFC 6840 5.1). Octets that are no data of the type become others of the same length.
pub fn make_further_canonical(rtype: Rtype, octets: &mut [u8])
    ensures { (canonical : List ℕ) → IsFurtherCanonical rtype octets.old canonical → octets.new ≡ canonical }
{
    if let Some(forms) = forms_of(rtype) {
        lower_fields(forms, octets);
    }
}

/// Puts names among fields of the forms in lower case.
fn lower_fields(forms: &[Form], octets: &mut [u8])
    requires { EndWell forms.now }
    ensures { (canonical : List ℕ) → LowersTo forms.now octets.old canonical → octets.new ≡ canonical }
{
    let Some((form, others)) = forms.split_first() else {
        return;
    };
    let (first, behind) = octets.split_at_mut(field_len(*form, octets));
    lower_field(*form, first);
    lower_fields(others, behind);
}

/// Puts a field of the form in lower case if it is a name whose form asks for it.
fn lower_field(form: Form, octets: &mut [u8])
    ensures { octets.new ≡ form_lowered form octets.old }
{
    if let Form::Name = form {
        octets.make_ascii_lowercase();
    }
}

/// Returns the length of the field of the form that the octets begin with, or that of the octets if they begin with none.
pub fn field_len(form: Form, octets: &[u8]) -> usize
    ensures len { (field : Field) (rest : List ℕ) → StandsIn form octets.now field rest → result ≡ length (field_octets field) }
    ensures within { result ≤ length octets.now }
{
    let mut parser = Parser::from_ref(octets);
    match Value::parse(form, &mut parser) {
        Ok(_) => octets.len().saturating_sub(parser.remaining()),
        Err(_) => octets.len(),
    }
}
