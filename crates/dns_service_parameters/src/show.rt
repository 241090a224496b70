//! Service parameters as tokens (RFC 9460 2.1).
ghost use Rattle.std.specs.Prelude.{◌≡◌, ◌∷◌, [], List, Some, OnOk, map};
ghost use Rattle.std.specs.Fmt.{DisplaysOnOk};
ghost use Rattle.std.specs.List.{flat_map};
ghost use Rattle.dns_scan.specs.StringText.{unquoted_text};
ghost use Rattle.dns_text.specs.Document.Piece.{Token};
ghost use Rattle.dns_text.specs.Writing.{Adds};
ghost use Rattle.dns_service_parameters.specs.Service.{AreParameters, Parameter, octets_of};
ghost use Rattle.dns_service_parameters.specs.ServiceShown as shown;
ghost use Rattle.dns_service_parameters.specs.ServiceText.{item_octet, key_text, parameter_text};

use crate::check::split_part;
use crate::form::Form;
use crate::items::{first_number, ipv4_of, ipv6_of, split_item};
use crate::keys::{form_at, name_of};
use dns_text::{Formatter, base64};
use std::fmt;

/// Writes each parameter as one token. An error is one of the formatter.
pub fn show_parameters<F: Formatter>(octets: &[u8], formatter: &mut F) -> fmt::Result
    ensures { (parameters : List Parameter) → AreParameters parameters → octets.now ≡ octets_of parameters
        → OnOk result (Adds F.writes formatter.old (map Token (map parameter_text parameters)) formatter.new) }
{
    let mut rest = octets;
    while let Some((key, value, behind)) = split_part(rest) {
        formatter.write_token(ShownParameter { key, value })?;
        rest = behind;
    }
    Ok(())
}

/// A parameter as a token.
#[derive(Drop)]
struct ShownParameter<'a> {
    key: u16,
    value: &'a [u8],
}

impl fmt::Display for ShownParameter<'_> {
    ghost output = { λ parameter. Some (shown.shown_parameter parameter.key parameter.value.now) };

    fn fmt<W: fmt::Write>(&self, f: &mut fmt::Formatter<W>) -> fmt::Result {
        write_key(f, self.key)?;
        if self.value.is_empty() {
            return Ok(());
        }
        f.write_char('=')?;
        write_value(f, form_at(self.key), self.value)
    }
}

/// Writes a key: its name, or `key` and its number.
fn write_key<W: fmt::Write>(f: &mut fmt::Formatter<W>, key: u16) -> fmt::Result
    ensures { DisplaysOnOk W.write_str_gives f.old result (Some (key_text key)) f.new }
{
    match name_of(key) {
        Some(name) => f.write_str(name),
        None => {
            f.write_str("key")?;
            write!(f, "{key}")
        }
    }
}

/// Writes a value of the form, as an unquoted token.
fn write_value<W: fmt::Write>(f: &mut fmt::Formatter<W>, form: Form, octets: &[u8]) -> fmt::Result
    ensures { DisplaysOnOk W.write_str_gives f.old result (Some (unquoted_text (shown.shown_value form octets.now))) f.new }
{
    match form {
        Form::Nothing => Ok(()),
        Form::Number => {
            let number = first_number(octets);
            write!(f, "{number}")
        }
        Form::Encoded => write!(f, "{}", base64::display(octets)),
        Form::Plain => write_octets(f, octets),
        Form::Keys | Form::Strings | Form::Ipv4s | Form::Ipv6s => write_items(f, form, octets),
    }
}

/// Writes the items of a list, with a comma between any two.
fn write_items<W: fmt::Write>(f: &mut fmt::Formatter<W>, form: Form, octets: &[u8]) -> fmt::Result
    ensures { DisplaysOnOk W.write_str_gives f.old result (Some (unquoted_text (shown.shown_items form octets.now))) f.new }
{
    let Some((first, mut rest)) = split_item(form, octets) else {
        return Ok(());
    };
    write_item(f, form, first)?;
    while let Some((item, behind)) = split_item(form, rest) {
        f.write_str(",")?;
        write_item(f, form, item)?;
        rest = behind;
    }
    Ok(())
}

/// Writes an item of a list.
fn write_item<W: fmt::Write>(f: &mut fmt::Formatter<W>, form: Form, item: &[u8]) -> fmt::Result
    requires { shown.IsItem form item.now }
    ensures { DisplaysOnOk W.write_str_gives f.old result
        (Some (unquoted_text (flat_map item_octet (shown.item_text form item.now)))) f.new }
{
    match form {
        Form::Keys => write_key(f, first_number(item)),
        Form::Ipv4s => write!(f, "{}", ipv4_of(item)),
        Form::Ipv6s => write!(f, "{}", ipv6_of(item).hex_groups()),
        Form::Strings | Form::Nothing | Form::Number | Form::Encoded | Form::Plain => {
            write_string(f, item)
        }
    }
}

/// Writes a string of a list: a comma and a backslash are behind a backslash.
fn write_string<W: fmt::Write>(f: &mut fmt::Formatter<W>, octets: &[u8]) -> fmt::Result
    ensures { DisplaysOnOk W.write_str_gives f.old result (Some (unquoted_text (flat_map item_octet octets.now))) f.new }
{
    for &octet in octets {
        write_item_octet(f, octet)?;
    }
    Ok(())
}

/// Writes an octet of a string of a list.
fn write_item_octet<W: fmt::Write>(f: &mut fmt::Formatter<W>, octet: u8) -> fmt::Result
    ensures { DisplaysOnOk W.write_str_gives f.old result (Some (unquoted_text (item_octet octet))) f.new }
{
    if octet == b',' || octet == b'\\' {
        write_octet(f, b'\\')?;
    }
    write_octet(f, octet)
}

/// Writes octets as an unquoted token.
fn write_octets<W: fmt::Write>(f: &mut fmt::Formatter<W>, octets: &[u8]) -> fmt::Result
    ensures { DisplaysOnOk W.write_str_gives f.old result (Some (unquoted_text octets.now)) f.new }
{
    for &octet in octets {
        write_octet(f, octet)?;
    }
    Ok(())
}

/// Writes an octet of an unquoted token.
fn write_octet<W: fmt::Write>(f: &mut fmt::Formatter<W>, octet: u8) -> fmt::Result
    ensures { DisplaysOnOk W.write_str_gives f.old result (Some (unquoted_text (octet ∷ []))) f.new }
{
    match octet {
        b' '..=b'~' if is_marked(octet) => {
            f.write_char('\\')?;
            f.write_char(char::from(octet))
        }
        b' '..=b'~' => f.write_char(char::from(octet)),
        _ => {
            f.write_char('\\')?;
            f.write_char(char::from(b'0' + octet / 100))?;
            f.write_char(char::from(b'0' + octet / 10 % 10))?;
            f.write_char(char::from(b'0' + octet % 10))
        }
    }
}

/// Returns whether the octet is behind a backslash in an unquoted token.
fn is_marked(octet: u8) -> bool
    ensures { result ≡ shown.is_marked octet }
{
    matches!(octet, b' ' | b'"' | b'(' | b')' | b';' | b'\\')
}
