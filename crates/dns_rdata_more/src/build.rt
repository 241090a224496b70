//! Data of the values of its fields.
ghost use Rattle.std.specs.Prelude.{◌+◌, ◌∷◌, ◌≡◌, ◌≢◌, ◌⊎◌, ◌↔◌, ◌≤◌, ◌<◌, ◌++◌, List, ℕ, [], Some, Err, IsSome, IsOk, IfOk, IfErr, OnOk, true, length};
ghost use Rattle.std.specs.List.{flat_map};
ghost use Rattle.dns_label.specs.Name.{IsName};
ghost use Rattle.dns_fields_more.specs.Forms.{AreFieldsOf, Keeps, forms_of, is_last as spec_is_last};
ghost use Rattle.dns_field_texts.specs.TypeBitmap.{IsBitmapOf};
ghost use Rattle.dns_fields_more.specs.declared.value.Value.TheVariants as of_value;
ghost use Rattle.dns_rdata_more.specs.Built.{Makes, fields_of, value_octets};
ghost use Rattle.dns_rdata_more.specs.FurtherData.{forms_or_none};
ghost use Rattle.dns_rdata_more.specs.declared.build.BuildError.TheVariants.{LongRecordData, LongString, BadField, OutOfMemory};

use crate::FurtherData;
use dns_fields_more::{Form, Value, append_types};
use dns_name::{AppendError, Compose, Name, Octets, OctetsBuilder, Parser, Rtype, ToName};
use dns_rr_data::DataType;
use dns_text::CharStr;
use std::alloc::Global;
use thiserror::Error;

/// Why data was not made of its fields.
#[derive(Clone, Copy, Debug, PartialEq, Eq, Error)]
pub enum BuildError {
    /// The data would have more than 65,535 octets.
    #[error("record data too long")]
    LongRecordData,
    /// A string would have more than 255 octets.
    #[error("long character string")]
    LongString,
    /// The octets are none of their field.
    #[error("bad field")]
    BadField,
    /// There is no memory for the data.
    #[error("out of memory")]
    OutOfMemory,
}

/// Returns the data of these values, one for each field of the type.
///
/// Fails with `LongRecordData` only if they are more than 65,535 octets, and with `OutOfMemory` if out of memory.
pub(crate) fn build<T: DataType>(
    alloc: Global,
    values: &[Value<'_>],
) -> Result<FurtherData<T, Vec<u8>>, BuildError>
    requires of_type { IsSome (forms_of T.number) }
    requires count { length values.now ≡ length (forms_or_none T.number) }
    requires each { AreFieldsOf (forms_or_none T.number) (fields_of (forms_or_none T.number) values.now) }
    ensures { Makes (fields_of (forms_or_none T.number) values.now) result }
{
    let mut octets = Vec::new(alloc);
    match append_values(values, &mut octets) {
        Ok(()) => {}
        Err(_) => return Err(BuildError::OutOfMemory),
    }
    if octets.len() > 65535 {
        return Err(BuildError::LongRecordData);
    }
    Ok(FurtherData::of_row(octets))
}

/// Returns the data of these values, and of a last field of these octets. Fails as `build` does.
pub(crate) fn build_with<T: DataType>(
    alloc: Global,
    values: &[Value<'_>],
    last: &[u8],
) -> Result<FurtherData<T, Vec<u8>>, BuildError>
    requires of_type { IsSome (forms_of T.number) }
    requires count { length values.now + 1 ≡ length (forms_or_none T.number) }
    requires each { AreFieldsOf (forms_or_none T.number) (fields_of (forms_or_none T.number) (values.now ++ of_value.Rest last ∷ [])) }
    ensures { Makes (fields_of (forms_or_none T.number) (values.now ++ of_value.Rest last.entry ∷ [])) result }
{
    let mut octets = Vec::new(alloc);
    match append_values(values, &mut octets) {
        Ok(()) => {}
        Err(_) => return Err(BuildError::OutOfMemory),
    }
    match octets.append_slice(last) {
        Ok(()) => {}
        Err(_) => return Err(BuildError::OutOfMemory),
    }
    if octets.len() > 65535 {
        return Err(BuildError::LongRecordData);
    }
    Ok(FurtherData::of_row(octets))
}

/// Appends the values. Fails if out of memory; it may then have appended some.
fn append_values(values: &[Value<'_>], octets: &mut Vec<u8>) -> Result<(), BuildError>
    ensures ok { OnOk result (octets.new.items ≡ octets.old.items ++ flat_map value_octets values.now) }
    ensures err { IfErr result (λ error. error ≡ OutOfMemory) }
{
    for value in values {
        match append_value(value, octets) {
            Ok(()) => {}
            Err(_) => return Err(BuildError::OutOfMemory),
        }
    }
    Ok(())
}

/// Appends a value. Fails if out of memory.
fn append_value(value: &Value<'_>, octets: &mut Vec<u8>) -> Result<(), AppendError>
    ensures { OnOk result (octets.new.items ≡ octets.old.items ++ value_octets value.now) }
{
    match value {
        Value::Number8(number) => octets.append_slice(&[*number]),
        Value::Number16(number) => octets.append_slice(&number.to_be_bytes()),
        Value::Number32(number) => octets.append_slice(&number.to_be_bytes()),
        Value::Name(name) => name.compose(octets),
        Value::String(string) => string.compose(octets),
        Value::Rest(rest) => octets.append_slice(rest),
    }
}

/// Returns a name as the value of a field.
pub(crate) fn name_value<Octs: Octets>(name: &Name<Octs>) -> Value<'_>
    ensures value { result ≡ of_value.Name name.now }
    ensures is { IsName name.now }
{
    Value::Name(name.for_ref())
}

/// Returns a string as the value of a field. Fails exactly if it has more than 255 octets.
pub(crate) fn string_value(octets: &[u8]) -> Result<Value<'_>, BuildError>
    ensures ok { IfOk result (λ value. value ≡ of_value.String octets.now) }
    ensures short { IsOk result ↔ (length octets.now ≤ 255) }
    ensures err { IfErr result (λ error. error ≡ LongString) }
{
    match CharStr::from_slice(octets) {
        Ok(string) => Ok(Value::String(string)),
        Err(_) => Err(BuildError::LongString),
    }
}

/// Returns the octets as the value of a last field of the form. Fails exactly if they are none of such a field.
pub(crate) fn last_value(form: Form, octets: &[u8]) -> Result<Value<'_>, BuildError>
    requires { spec_is_last form ≡ true }
    ensures ok { IfOk result (λ value. value ≡ of_value.Rest octets.entry) }
    ensures keeps { IsOk result ↔ Keeps form octets.now }
    ensures err { IfErr result (λ error. error ≡ BadField) }
{
    match Value::parse(form, &mut Parser::from_ref(octets)) {
        Ok(_) => Ok(Value::Rest(octets)),
        Err(_) => Err(BuildError::BadField),
    }
}

/// Returns one octet or more as the value of a field behind its length. Fails exactly if they are none, or more than 255.
pub(crate) fn hash_value(octets: &[u8]) -> Result<Value<'_>, BuildError>
    ensures ok { IfOk result (λ value. value ≡ of_value.String octets.now) }
    ensures some { OnOk result ((octets.now ≢ []) × (length octets.now ≤ 255)) }
    ensures long { result ≡ Err LongString → 255 < length octets.now }
    ensures none { result ≡ Err BadField → octets.now ≡ [] }
    ensures errors { IfErr result (λ error. (error ≡ LongString) ⊎ (error ≡ BadField)) }
{
    if octets.is_empty() {
        return Err(BuildError::BadField);
    }
    string_value(octets)
}

/// Returns the bitmap of the types, which may be in any order and repeated. Fails if out of memory.
pub(crate) fn bitmap_of(alloc: Global, types: &[Rtype]) -> Result<Vec<u8>, BuildError>
    ensures ok { IfOk result (λ bitmap. IsBitmapOf types.now bitmap.items) }
    ensures err { IfErr result (λ error. error ≡ OutOfMemory) }
{
    let mut bitmap = Vec::new(alloc);
    match append_types(types, &mut bitmap) {
        Ok(()) => Ok(bitmap),
        Err(_) => Err(BuildError::OutOfMemory),
    }
}
