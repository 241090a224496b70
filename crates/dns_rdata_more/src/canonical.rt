//! Further data in canonical form (RFC 4034 6.2).
ghost use Rattle.std.specs.Prelude.{◌≡◌, ◌++◌, Err, length, OnOk, OnErr};
ghost use Rattle.dns_octets.specs.Builder.{GrowsTo, IsPast};
ghost use Rattle.dns_octets.specs.declared.error.AppendError.TheVariants.{ShortBuf, BadLength};
ghost use Rattle.dns_octets.specs.Parser.{rest_of};
ghost use Rattle.dns_fields.specs.Fields.{field_octets};
ghost use Rattle.dns_fields_more.specs.Forms.{IsFieldOf, IsFurtherData, lowered_as};
ghost use Rattle.dns_fields_more.specs.Rows.{EndWell, StandAs};
ghost use Rattle.dns_fields_more.specs.Values.{field_of};
ghost use Rattle.dns_rdata_more.specs.FurtherData.{canonical_of, lowered_octets};

use dns_fields_more::{Form, Value, forms_of};
use dns_name::{AppendError, Compose, Composer, Parser, Rtype, ToName};

/// Appends data of the further type in canonical form, all or nothing. Fails with `ShortBuf` only if the target is too full, and
/// with `OutOfMemory` only if out of memory.
pub(crate) fn compose_canonical_further<Target: Composer>(
    rtype: Rtype,
    octets: &[u8],
    target: &mut Target,
) -> Result<(), AppendError>
    requires { IsFurtherData rtype octets.now }
    ensures ok { OnOk result (Target.list target.new ≡ Target.list target.old ++ canonical_of rtype octets.now) }
    ensures err { OnErr result (Target.list target.new ≡ Target.list target.old) }
    ensures known { Target.known target.new ≡ Target.known target.old }
    ensures short { result ≡ Err ShortBuf
        → IsPast (Target.bound target.old) (length (Target.list target.old ++ canonical_of rtype octets.now)) }
    ensures not_bad { result ≡ Err BadLength → ⊥ }
    ensures same_bound { Target.bound target.new ≡ Target.bound target.old }
    ensures stays { Target.stays target.old target.new }
{
    let Some(forms) = forms_of(rtype) else {
        unreachable!();
    };
    let len = target.octets().len();
    match compose_fields(forms, Parser::from_ref(octets), target) {
        Ok(()) => Ok(()),
        Err(error) => {
            target.truncate(len);
            Err(error)
        }
    }
}

/// Appends fields of the forms in canonical form, which are what is left of the octets. Fails as `compose_canonical_further`
/// does, and may then have appended some of them.
fn compose_fields<Target: Composer>(
    forms: &[Form],
    mut parser: Parser<'_>,
    target: &mut Target,
) -> Result<(), AppendError>
    requires well { EndWell forms.now }
    requires row { StandAs forms.now (rest_of parser) }
    ensures ok { OnOk result (Target.list target.new ≡ Target.list target.old ++ lowered_octets forms.now (rest_of parser.entry)) }
    ensures grows { GrowsTo (Target.list target.old) (Target.known target.old) (Target.list target.new) (Target.known target.new) }
    ensures known { Target.known target.new ≡ Target.known target.old }
    ensures short { result ≡ Err ShortBuf
        → IsPast (Target.bound target.old) (length (Target.list target.old ++ lowered_octets forms.now (rest_of parser.entry))) }
    ensures not_bad { result ≡ Err BadLength → ⊥ }
    ensures same_bound { Target.bound target.new ≡ Target.bound target.old }
    ensures stays { Target.stays target.old target.new }
{
    let Some((form, others)) = forms.split_first() else {
        return Ok(());
    };
    match Value::parse(*form, &mut parser) {
        Ok(value) => {
            compose_value(*form, &value, target)?;
            compose_fields(others, parser, target)
        }
        Err(_) => unreachable!(),
    }
}

/// Appends a field of the form in canonical form, all or nothing.
fn compose_value<Target: Composer>(
    form: Form,
    value: &Value<'_>,
    target: &mut Target,
) -> Result<(), AppendError>
    requires { IsFieldOf form (field_of form value.now) }
    ensures ok { OnOk result (Target.list target.new ≡ Target.list target.old ++ field_octets (lowered_as form (field_of form value.now))) }
    ensures grows { GrowsTo (Target.list target.old) (Target.known target.old) (Target.list target.new) (Target.known target.new) }
    ensures known { Target.known target.new ≡ Target.known target.old }
    ensures short { result ≡ Err ShortBuf
        → IsPast (Target.bound target.old) (length (Target.list target.old ++ field_octets (lowered_as form (field_of form value.now)))) }
    ensures not_bad { result ≡ Err BadLength → ⊥ }
    ensures same_bound { Target.bound target.new ≡ Target.bound target.old }
    ensures stays { Target.stays target.old target.new }
{
    match value {
        Value::Number8(number) => target.append_slice(&[*number]),
        Value::Number16(number) => target.append_slice(&number.to_be_bytes()),
        Value::Number32(number) => target.append_slice(&number.to_be_bytes()),
        Value::Name(name) => match form {
            Form::Name => name.compose_canonical(target),
            _ => name.compose(target),
        },
        Value::String(string) => string.compose(target),
        Value::Rest(octets) => target.append_slice(octets),
    }
}
