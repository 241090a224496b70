//! The fields of further data by their places.
ghost use Rattle.std.specs.Prelude.{◌≡◌, ◌<◌, Some, IsSome, length, slice_get};
ghost use Rattle.dns_octets.specs.Parser.{rest_of};
ghost use Rattle.dns_fields.specs.Fields.{kind_of, number8, number16, number32, uncompressed, string, rest_text, rest16, rest64};
ghost use Rattle.dns_fields.specs.Fields as kinds;
ghost use Rattle.dns_fields_more.specs.Forms.{IsFurtherData, kind_of_form};
ghost use Rattle.dns_fields_more.specs.declared.form.Form.{Form};
ghost use Rattle.dns_fields_more.specs.declared.form.Form.TheVariants as form_of;
ghost use Rattle.dns_fields_more.specs.Rows.{EndWell, StandAs};
ghost use Rattle.dns_fields_more.specs.Values.{field_of};
ghost use Rattle.dns_rdata_more.specs.FurtherData.{HasField, IsFieldAt, form_at, kind_at};

use super::FurtherData;
use dns_fields_more::{Form, RtypeBitmap, Value, forms_of};
use dns_name::{Name, Octets, Parser, Rtype};
use dns_rr_data::DataType;

impl<T: DataType, Octs: Octets> FurtherData<T, Octs> {
    /// Returns the number of one octet at a place of the data.
    pub(crate) fn number8_at(&self, place: usize) -> u8
        requires { kind_at T.number place ≡ Some kinds.Number8 }
        ensures { IsFieldAt T.number self.now place (number8 result) }
    {
        match value_at(Rtype::from_int(T::number()), self.octets.octets(), place) {
            Value::Number8(number) => number,
            _ => unreachable!(),
        }
    }

    /// Returns the number of two octets at a place of the data.
    pub(crate) fn number16_at(&self, place: usize) -> u16
        requires { kind_at T.number place ≡ Some kinds.Number16 }
        ensures { IsFieldAt T.number self.now place (number16 result) }
    {
        match value_at(Rtype::from_int(T::number()), self.octets.octets(), place) {
            Value::Number16(number) => number,
            _ => unreachable!(),
        }
    }

    /// Returns the number of four octets at a place of the data.
    pub(crate) fn number32_at(&self, place: usize) -> u32
        requires { kind_at T.number place ≡ Some kinds.Number32 }
        ensures { IsFieldAt T.number self.now place (number32 result) }
    {
        match value_at(Rtype::from_int(T::number()), self.octets.octets(), place) {
            Value::Number32(number) => number,
            _ => unreachable!(),
        }
    }

    /// Returns the name at a place of the data.
    pub(crate) fn name_at(&self, place: usize) -> Name<&[u8]>
        requires { kind_at T.number place ≡ Some kinds.Uncompressed }
        ensures { IsFieldAt T.number self.now place (uncompressed result) }
    {
        match value_at(Rtype::from_int(T::number()), self.octets.octets(), place) {
            Value::Name(name) => name,
            _ => unreachable!(),
        }
    }

    /// Returns the octets of the string at a place of the data.
    pub(crate) fn string_at(&self, place: usize) -> &[u8]
        requires { kind_at T.number place ≡ Some kinds.String }
        ensures { IsFieldAt T.number self.now place (string result.now) }
    {
        match value_at(Rtype::from_int(T::number()), self.octets.octets(), place) {
            Value::String(string) => string.into_octets(),
            _ => unreachable!(),
        }
    }

    /// Returns the octets of the text at a place of the data.
    pub(crate) fn rest_text_at(&self, place: usize) -> &[u8]
        requires { kind_at T.number place ≡ Some kinds.RestText }
        ensures { IsFieldAt T.number self.now place (rest_text result.now) }
    {
        match value_at(Rtype::from_int(T::number()), self.octets.octets(), place) {
            Value::Rest(octets) => octets,
            _ => unreachable!(),
        }
    }

    /// Returns the last octets, which are printed in base 16 or in a form of their own, at a place of the data.
    pub(crate) fn rest16_at(&self, place: usize) -> &[u8]
        requires { kind_at T.number place ≡ Some kinds.Rest16 }
        ensures { IsFieldAt T.number self.now place (rest16 result.now) }
    {
        match value_at(Rtype::from_int(T::number()), self.octets.octets(), place) {
            Value::Rest(octets) => octets,
            _ => unreachable!(),
        }
    }

    /// Returns the bitmap of types at a place of the data.
    pub(crate) fn types_at(&self, place: usize) -> RtypeBitmap<'_>
        requires { form_at T.number place ≡ Some form_of.Types }
        ensures { IsFieldAt T.number self.now place (rest16 result) }
    {
        RtypeBitmap::from_octets_unchecked(self.rest16_at(place))
    }

    /// Returns the last octets, which are printed in base 64, at a place of the data.
    pub(crate) fn rest64_at(&self, place: usize) -> &[u8]
        requires { kind_at T.number place ≡ Some kinds.Rest64 }
        ensures { IsFieldAt T.number self.now place (rest64 result.now) }
    {
        match value_at(Rtype::from_int(T::number()), self.octets.octets(), place) {
            Value::Rest(octets) => octets,
            _ => unreachable!(),
        }
    }
}

/// Returns the field at a place of the data.
fn value_at<'a>(rtype: Rtype, octets: &'a [u8], place: usize) -> Value<'a>
    requires are { IsFurtherData rtype octets.now }
    requires there { IsSome (form_at rtype place) }
    ensures at { (form : Form) → form_at rtype place ≡ Some form → IsFieldAt rtype octets.now place (field_of form result) }
    ensures kind { (form : Form) → form_at rtype place ≡ Some form → kind_of (field_of form result) ≡ kind_of_form form }
{
    let Some(forms) = forms_of(rtype) else {
        unreachable!();
    };
    value_in(forms, Parser::from_ref(octets), place)
}

/// Returns the field at a place of those that are what is left of the octets.
fn value_in<'a>(forms: &[Form], mut parser: Parser<'a>, place: usize) -> Value<'a>
    requires well { EndWell forms.now }
    requires row { StandAs forms.now (rest_of parser) }
    requires there { place < length forms.now }
    ensures at { (form : Form) → slice_get forms.now place ≡ Some form → HasField forms.now (rest_of parser.entry) place (field_of form result) }
    ensures kind { (form : Form) → slice_get forms.now place ≡ Some form → kind_of (field_of form result) ≡ kind_of_form form }
{
    let Some((form, others)) = forms.split_first() else {
        unreachable!();
    };
    match Value::parse(*form, &mut parser) {
        Ok(value) if place == 0 => value,
        Ok(_) => value_in(others, parser, place - 1),
        Err(_) => unreachable!(),
    }
}
