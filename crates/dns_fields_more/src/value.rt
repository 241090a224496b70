//! Fields in octets, every name in full.
ghost use Rattle.std.specs.Prelude.{◌≡◌, ◌↔◌, List, ℕ, IfOk, OnErr, IsTrue, true, [], ◌++◌};
ghost use Rattle.dns_octets.specs.Parser.{GoesOn, octets_of, place_of, rest_of};
ghost use Rattle.dns_fields.specs.Fields.{Field, number8, number16, number32, string, uncompressed};
ghost use Rattle.dns_fields.specs.Fields as kinds;
ghost use Rattle.dns_fields.specs.OctetsForm.{StartsWithField};
ghost use Rattle.dns_fields_more.specs.Forms.{Keeps, is_last as spec_is_last};
ghost use Rattle.dns_fields_more.specs.Values.{NoneStandsIn, StandsIn, field_of, rest_field};
ghost use Rattle.dns_fields_more.specs.declared.form.Form.TheVariants as form_of;

use crate::Form;
use dns_field_texts::{is_location, is_type_bitmap};
use dns_name::{Name, ParseError, Parser};
use dns_service_parameters::are_parameters;
use dns_text::CharStr;

/// A field of any form, in octets.
#[derive(Debug, Drop)]
pub enum Value<'a> {
    Number8(u8),
    Number16(u16),
    Number32(u32),
    Name(Name<&'a [u8]>),
    String(CharStr<&'a [u8]>),
    /// All octets that are left.
    Rest(&'a [u8]),
}

impl<'a> Value<'a> {
    /// Parses a field of the form at the parser's place, and leaves the parser after it. Fails if none is there.
    pub fn parse(form: Form, parser: &mut Parser<'a>) -> Result<Self, ParseError>
        ensures ok { IfOk result (λ value. StandsIn form (rest_of parser.old) (field_of form value) (rest_of parser.new)) }
        ensures err { OnErr result (NoneStandsIn form (rest_of parser.old)) }
        ensures stays { OnErr result (parser.new ≡ parser.old) }
    {
        match form {
            Form::Number8 | Form::Algorithm => Ok(Value::Number8(number8(parser)?)),
            Form::Number16 | Form::Rtype | Form::CertificateType => {
                Ok(Value::Number16(number16(parser)?))
            }
            Form::Number32 | Form::Time => Ok(Value::Number32(number32(parser)?)),
            Form::Name | Form::CasedName => Ok(Value::Name(name(parser)?)),
            Form::String | Form::Salt => Ok(Value::String(string(parser)?)),
            Form::Hash => Ok(Value::String(some_string(parser)?)),
            _ => Ok(Value::Rest(rest(form, parser)?)),
        }
    }
}

/// Parses a number of one octet.
fn number8(parser: &mut Parser<'_>) -> Result<u8, ParseError>
    ensures ok { IfOk result (λ number. StartsWithField (rest_of parser.old) kinds.Number8 (number8 number) (rest_of parser.new)) }
    ensures err { OnErr result ((field : Field) (rest : List ℕ) → StartsWithField (rest_of parser.old) kinds.Number8 field rest → ⊥) }
    ensures stays { OnErr result (parser.new ≡ parser.old) }
{
    Ok(parser.parse_u8()?)
}

/// Parses a number of two octets.
fn number16(parser: &mut Parser<'_>) -> Result<u16, ParseError>
    ensures ok { IfOk result (λ number. StartsWithField (rest_of parser.old) kinds.Number16 (number16 number) (rest_of parser.new)) }
    ensures err { OnErr result ((field : Field) (rest : List ℕ) → StartsWithField (rest_of parser.old) kinds.Number16 field rest → ⊥) }
    ensures stays { OnErr result (parser.new ≡ parser.old) }
{
    Ok(parser.parse_u16_be()?)
}

/// Parses a number of four octets.
fn number32(parser: &mut Parser<'_>) -> Result<u32, ParseError>
    ensures ok { IfOk result (λ number. StartsWithField (rest_of parser.old) kinds.Number32 (number32 number) (rest_of parser.new)) }
    ensures err { OnErr result ((field : Field) (rest : List ℕ) → StartsWithField (rest_of parser.old) kinds.Number32 field rest → ⊥) }
    ensures stays { OnErr result (parser.new ≡ parser.old) }
{
    Ok(parser.parse_u32_be()?)
}

/// Parses a name.
fn name<'a>(parser: &mut Parser<'a>) -> Result<Name<&'a [u8]>, ParseError>
    ensures ok { IfOk result (λ name. StartsWithField (rest_of parser.old) kinds.Uncompressed (uncompressed name) (rest_of parser.new)) }
    ensures err { OnErr result ((field : Field) (rest : List ℕ) → StartsWithField (rest_of parser.old) kinds.Uncompressed field rest → ⊥) }
    ensures stays { OnErr result (parser.new ≡ parser.old) }
{
    match Name::parse(parser) {
        Ok(name) => Ok(name),
        Err(error) => Err(error),
    }
}

/// Parses a character string.
fn string<'a>(parser: &mut Parser<'a>) -> Result<CharStr<&'a [u8]>, ParseError>
    ensures ok { IfOk result (λ octets. StartsWithField (rest_of parser.old) kinds.String (string octets) (rest_of parser.new)) }
    ensures err { OnErr result ((field : Field) (rest : List ℕ) → StartsWithField (rest_of parser.old) kinds.String field rest → ⊥) }
    ensures stays { OnErr result (parser.new ≡ parser.old) }
{
    match CharStr::parse(parser) {
        Ok(octets) => Ok(octets),
        Err(error) => Err(error),
    }
}

/// Parses a character string of one octet or more.
fn some_string<'a>(parser: &mut Parser<'a>) -> Result<CharStr<&'a [u8]>, ParseError>
    ensures ok { IfOk result (λ octets. StandsIn form_of.Hash (rest_of parser.old) (string octets) (rest_of parser.new)) }
    ensures err { OnErr result (NoneStandsIn form_of.Hash (rest_of parser.old)) }
    ensures stays { OnErr result (parser.new ≡ parser.old) }
{
    let mut reader = *parser;
    let octets = string(&mut reader)?;
    if octets.is_empty() {
        return Err(ParseError::form_error("empty hash"));
    }
    *parser = reader;
    Ok(octets)
}

/// Takes all octets that are left as a field of the form.
fn rest<'a>(form: Form, parser: &mut Parser<'a>) -> Result<&'a [u8], ParseError>
    requires { spec_is_last form ≡ true }
    ensures ok { IfOk result (λ octets. StandsIn form (rest_of parser.old) (rest_field form octets.now) (rest_of parser.new)) }
    ensures err { OnErr result (NoneStandsIn form (rest_of parser.old)) }
    ensures stays { OnErr result (parser.new ≡ parser.old) }
{
    let octets = parser.peek_all();
    if !keeps(form, octets) {
        return Err(ParseError::form_error("bad field"));
    }
    parser.advance_to_end();
    Ok(octets)
}

/// Returns whether the octets keep the rule of the form for a field that has all octets that are left.
fn keeps(form: Form, octets: &[u8]) -> bool
    requires { spec_is_last form ≡ true }
    ensures { IsTrue result ↔ Keeps form octets.now }
{
    match form {
        Form::Types => is_type_bitmap(octets),
        Form::Parameters => are_parameters(octets),
        Form::Location => is_location(octets),
        Form::Eui48 => octets.len() == 6,
        Form::Eui64 => octets.len() == 8,
        _ => true,
    }
}
