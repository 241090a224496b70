//! Fields that are printed.
ghost use Rattle.std.specs.Prelude.{◌≡◌, OnOk};
ghost use Rattle.dns_fields.specs.Fields.{rest16};
ghost use Rattle.dns_fields_more.specs.Forms.{IsFieldOf};
ghost use Rattle.dns_octets.specs.Parser.{rest_of};
ghost use Rattle.dns_fields_more.specs.Text.{ShowsFields, ShowsForm, ShowsFurther};
ghost use Rattle.dns_fields_more.specs.Values.{field_of, rest_field};

use crate::{Form, Value, forms_of};
use dns_field_texts::{
    DisplayHardware, DisplaySalt, DisplayTime, DisplayType, show_location, show_types,
};
use dns_fields::{Rest16, Rest64, RestText, ShowField, ShowLast};
use dns_name::{Parser, Rtype, ToName};
use dns_service_parameters::show_parameters;
use dns_text::{Formatter, base32};
use std::fmt;

/// Writes data of the further type as a block, every name with its last dot. Fails if the octets are no data of the type,
/// and with an error of the formatter. It may then have written a part of it.
pub fn show_further<F: Formatter>(rtype: Rtype, octets: &[u8], formatter: &mut F) -> fmt::Result
    ensures { OnOk result (ShowsFurther F.writes rtype octets.now formatter.old formatter.new) }
{
    let Some(forms) = forms_of(rtype) else {
        return Err(fmt::Error);
    };
    if octets.len() > 65535 {
        return Err(fmt::Error);
    }
    formatter.open_block()?;
    show_fields(forms, Parser::from_ref(octets), formatter)?;
    formatter.close_block()
}

/// Writes the tokens of fields of the forms, which are what is left of the octets. Fails if they are no such fields, and with
/// an error of the formatter.
fn show_fields<F: Formatter>(
    forms: &[Form],
    mut parser: Parser<'_>,
    formatter: &mut F,
) -> fmt::Result
    ensures { OnOk result (ShowsFields F.writes forms.now (rest_of parser.entry) formatter.old formatter.new) }
{
    let Some((form, others)) = forms.split_first() else {
        return if parser.remaining() == 0 {
            Ok(())
        } else {
            Err(fmt::Error)
        };
    };
    let Ok(value) = Value::parse(*form, &mut parser) else {
        return Err(fmt::Error);
    };
    show_value(*form, &value, formatter)?;
    show_fields(others, parser, formatter)
}

/// Writes the tokens of a field of the form. An error is one of the formatter.
fn show_value<F: Formatter>(form: Form, value: &Value<'_>, formatter: &mut F) -> fmt::Result
    requires { IsFieldOf form (field_of form value.now) }
    ensures { OnOk result (ShowsForm F.writes form (field_of form value.now) formatter.old formatter.new) }
{
    match value {
        Value::Number8(number) => number.show_field(formatter),
        Value::Number16(number) => match form {
            Form::Rtype => formatter.write_token(DisplayType(Rtype::from_int(*number))),
            _ => number.show_field(formatter),
        },
        Value::Number32(number) => match form {
            Form::Time => formatter.write_token(DisplayTime(*number)),
            _ => number.show_field(formatter),
        },
        Value::Name(name) => formatter.write_token(name.fmt_with_dot()),
        Value::String(string) => match form {
            Form::Salt => formatter.write_token(DisplaySalt(string.as_slice())),
            Form::Hash => formatter.write_token(base32::display(string.as_slice())),
            _ => string.show_field(formatter),
        },
        Value::Rest(octets) => show_rest(form, octets, formatter),
    }
}

/// Writes the tokens of a field of the form that has all octets that are left. An error is one of the formatter.
fn show_rest<F: Formatter>(form: Form, octets: &[u8], formatter: &mut F) -> fmt::Result
    requires { IsFieldOf form (rest_field form octets.now) }
    ensures { OnOk result (ShowsForm F.writes form (rest_field form octets.now) formatter.old formatter.new) }
{
    match form {
        Form::Types => show_types(octets, formatter),
        Form::Parameters => show_parameters(octets, formatter),
        Form::Location => show_location(octets, formatter),
        Form::Eui48 => formatter.write_token(DisplayHardware(octets)),
        Form::Eui64 => formatter.write_token(DisplayHardware(octets)),
        Form::RestText => RestText(octets).show_last(formatter),
        Form::Rest64 => Rest64(octets).show_last(formatter),
        _ => Rest16(octets).show_last(formatter),
    }
}
