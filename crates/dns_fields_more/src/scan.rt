//! Fields that are scanned into octets.
ghost use Rattle.std.specs.Prelude.{◌≡◌, ◌≢◌, ◌++◌, false, true, List, [], ℕ, IfErr, IfOk, IfSome, IsSome, OnOk};
ghost use Rattle.dns_scan.specs.Token.{IsWord, SameNames, Takes, Token};
ghost use Rattle.dns_field_texts.specs.Appended.{GoesOn};
ghost use Rattle.dns_fields_more.specs.Text.{AppendsForm, AppendsForms, NoFormScans, NoFormsScan};
ghost use Rattle.dns_field_texts.specs.NumberedWords.{algorithm_read, certificate_type_read};
ghost use Rattle.dns_field_texts.specs.Time.{time_read};
ghost use Rattle.dns_field_texts.specs.TypeWords.{type_word_read};
ghost use Rattle.dns_field_texts.specs.declared.append.WordError.TheVariants.{Invalid};
ghost use Rattle.dns_fields_more.specs.declared.form.Form.TheVariants as form_of;

use crate::Form;
use dns_entry_scanner::EntryScanner;
use dns_field_texts::{
    WordError, append_hardware, append_hash, append_salt, read_algorithm, read_certificate_type,
    read_time, read_type, scan_base64_into, scan_location_into, scan_types_into,
};
use dns_name::{Octets, Rtype, ToName};
use dns_service_parameters::scan_parameters_into;
use dns_text::{Scan, ScannerError, base16};
use std::alloc::{AllocError, Global};

/// Scans fields of the forms one after another, takes their tokens, and appends their octets, every name in full.
///
/// Fails with an error other than `short_buf` only if the tokens do not begin with such fields. It may then have appended
/// some of them.
pub(crate) fn scan_forms<S: EntryScanner>(
    forms: &[Form],
    scanner: &mut S,
    octets: &mut Vec<u8>,
) -> Result<(), S::Error>
    ensures ok { OnOk result (AppendsForms (S.names scanner.old) forms.now (S.tokens scanner.old) (S.tokens scanner.new)
        octets.old.items octets.new.items) }
    ensures err { IfErr result (λ error. S.Error.is_short error ≡ false
        → NoFormsScan (S.names scanner.old) forms.now (S.tokens scanner.old)) }
    ensures names { SameNames (S.names scanner.old) (S.names scanner.new) }
    ensures more { GoesOn octets.old.items octets.new.items }
{
    let mut left = forms;
    while let Some((form, others)) = left.split_first() {
        match scan_form(*form, scanner, octets) {
            Ok(()) => left = others,
            Err(error) => return Err(error),
        }
    }
    Ok(())
}

/// Scans a field of the form.
fn scan_form<S: EntryScanner>(
    form: Form,
    scanner: &mut S,
    octets: &mut Vec<u8>,
) -> Result<(), S::Error>
    ensures ok { OnOk result (AppendsForm (S.names scanner.old) form (S.tokens scanner.old) (S.tokens scanner.new)
        octets.old.items octets.new.items) }
    ensures err { IfErr result (λ error. S.Error.is_short error ≡ false → NoFormScans (S.names scanner.old) form (S.tokens scanner.old)) }
    ensures names { SameNames (S.names scanner.old) (S.names scanner.new) }
    ensures more { GoesOn octets.old.items octets.new.items }
{
    match form {
        Form::Number8 => scan_number8(scanner, octets),
        Form::Number16 => scan_number16(scanner, octets),
        Form::Number32 => scan_number32(scanner, octets),
        Form::Name => scan_lowered_name(scanner, octets),
        Form::CasedName => scan_cased_name(scanner, octets),
        Form::String => scan_string(scanner, octets),
        Form::RestText => scan_text(scanner, octets),
        Form::Rest16 => scan_base16(scanner, octets),
        Form::Rest64 => scan_base64(scanner, octets),
        Form::Rtype => scan_rtype(scanner, octets),
        Form::Algorithm => scan_algorithm(scanner, octets),
        Form::CertificateType => scan_certificate_type(scanner, octets),
        Form::Time => scan_time(scanner, octets),
        Form::Salt => scan_salt(scanner, octets),
        Form::Hash => scan_hash(scanner, octets),
        Form::Types => scan_types(scanner, octets),
        Form::Parameters => scan_parameters(scanner, octets),
        Form::Location => scan_location(scanner, octets),
        Form::Eui48 => scan_eui48(scanner, octets),
        Form::Eui64 => scan_eui64(scanner, octets),
    }
}

/// Scans a number of one octet.
fn scan_number8<S: EntryScanner>(scanner: &mut S, octets: &mut Vec<u8>) -> Result<(), S::Error>
    ensures ok { OnOk result (AppendsForm (S.names scanner.old) form_of.Number8 (S.tokens scanner.old) (S.tokens scanner.new)
        octets.old.items octets.new.items) }
    ensures err { IfErr result (λ error. S.Error.is_short error ≡ false
        → NoFormScans (S.names scanner.old) form_of.Number8 (S.tokens scanner.old)) }
    ensures names { SameNames (S.names scanner.old) (S.names scanner.new) }
    ensures more { GoesOn octets.old.items octets.new.items }
{
    match u8::scan(scanner) {
        Ok(number) => append_number::<S>(octets, &[number]),
        Err(error) => Err(error),
    }
}

/// Scans a number of two octets.
fn scan_number16<S: EntryScanner>(scanner: &mut S, octets: &mut Vec<u8>) -> Result<(), S::Error>
    ensures ok { OnOk result (AppendsForm (S.names scanner.old) form_of.Number16 (S.tokens scanner.old) (S.tokens scanner.new)
        octets.old.items octets.new.items) }
    ensures err { IfErr result (λ error. S.Error.is_short error ≡ false
        → NoFormScans (S.names scanner.old) form_of.Number16 (S.tokens scanner.old)) }
    ensures names { SameNames (S.names scanner.old) (S.names scanner.new) }
    ensures more { GoesOn octets.old.items octets.new.items }
{
    match u16::scan(scanner) {
        Ok(number) => append_number::<S>(octets, &number.to_be_bytes()),
        Err(error) => Err(error),
    }
}

/// Scans a number of four octets.
fn scan_number32<S: EntryScanner>(scanner: &mut S, octets: &mut Vec<u8>) -> Result<(), S::Error>
    ensures ok { OnOk result (AppendsForm (S.names scanner.old) form_of.Number32 (S.tokens scanner.old) (S.tokens scanner.new)
        octets.old.items octets.new.items) }
    ensures err { IfErr result (λ error. S.Error.is_short error ≡ false
        → NoFormScans (S.names scanner.old) form_of.Number32 (S.tokens scanner.old)) }
    ensures names { SameNames (S.names scanner.old) (S.names scanner.new) }
    ensures more { GoesOn octets.old.items octets.new.items }
{
    match u32::scan(scanner) {
        Ok(number) => append_number::<S>(octets, &number.to_be_bytes()),
        Err(error) => Err(error),
    }
}

/// Scans a character string.
fn scan_string<S: EntryScanner>(scanner: &mut S, octets: &mut Vec<u8>) -> Result<(), S::Error>
    ensures ok { OnOk result (AppendsForm (S.names scanner.old) form_of.String (S.tokens scanner.old) (S.tokens scanner.new)
        octets.old.items octets.new.items) }
    ensures err { IfErr result (λ error. S.Error.is_short error ≡ false
        → NoFormScans (S.names scanner.old) form_of.String (S.tokens scanner.old)) }
    ensures names { SameNames (S.names scanner.old) (S.names scanner.new) }
    ensures more { GoesOn octets.old.items octets.new.items }
{
    match scanner.scan_charstr_into(octets) {
        Ok(()) => Ok(()),
        Err(error) => Err(error),
    }
}

/// Scans a text, which is one token.
fn scan_text<S: EntryScanner>(scanner: &mut S, octets: &mut Vec<u8>) -> Result<(), S::Error>
    ensures ok { OnOk result (AppendsForm (S.names scanner.old) form_of.RestText (S.tokens scanner.old) (S.tokens scanner.new)
        octets.old.items octets.new.items) }
    ensures err { IfErr result (λ error. S.Error.is_short error ≡ false
        → NoFormScans (S.names scanner.old) form_of.RestText (S.tokens scanner.old)) }
    ensures names { SameNames (S.names scanner.old) (S.names scanner.new) }
    ensures more { GoesOn octets.old.items octets.new.items }
{
    match scanner.scan_octets_into(octets) {
        Ok(()) => Ok(()),
        Err(error) => Err(error),
    }
}

/// Scans all tokens that are left, in base 16 of one octet or more.
fn scan_base16<S: EntryScanner>(scanner: &mut S, octets: &mut Vec<u8>) -> Result<(), S::Error>
    ensures ok { OnOk result (AppendsForm (S.names scanner.old) form_of.Rest16 (S.tokens scanner.old) (S.tokens scanner.new)
        octets.old.items octets.new.items) }
    ensures err { IfErr result (λ error. S.Error.is_short error ≡ false
        → NoFormScans (S.names scanner.old) form_of.Rest16 (S.tokens scanner.old)) }
    ensures names { SameNames (S.names scanner.old) (S.names scanner.new) }
    ensures more { GoesOn octets.old.items octets.new.items }
{
    match base16::scan_entry(scanner) {
        Ok(data) => append_some::<S>(octets, data.octets()),
        Err(error) => Err(error),
    }
}

/// Scans all tokens that are left, in base 64 of one octet or more.
fn scan_base64<S: EntryScanner>(scanner: &mut S, octets: &mut Vec<u8>) -> Result<(), S::Error>
    ensures ok { OnOk result (AppendsForm (S.names scanner.old) form_of.Rest64 (S.tokens scanner.old) (S.tokens scanner.new)
        octets.old.items octets.new.items) }
    ensures err { IfErr result (λ error. S.Error.is_short error ≡ false
        → NoFormScans (S.names scanner.old) form_of.Rest64 (S.tokens scanner.old)) }
    ensures names { SameNames (S.names scanner.old) (S.names scanner.new) }
    ensures more { GoesOn octets.old.items octets.new.items }
{
    let before = octets.len();
    match scan_base64_into(scanner, octets) {
        Ok(()) => {}
        Err(error) => return Err(error),
    }
    if octets.len() == before {
        return Err(S::Error::custom("no octets"));
    }
    Ok(())
}

/// Scans a name that is in lower case in canonical form.
fn scan_lowered_name<S: EntryScanner>(scanner: &mut S, octets: &mut Vec<u8>) -> Result<(), S::Error>
    ensures ok { OnOk result (AppendsForm (S.names scanner.old) form_of.Name (S.tokens scanner.old) (S.tokens scanner.new)
        octets.old.items octets.new.items) }
    ensures err { IfErr result (λ error. S.Error.is_short error ≡ false
        → NoFormScans (S.names scanner.old) form_of.Name (S.tokens scanner.old)) }
    ensures names { SameNames (S.names scanner.old) (S.names scanner.new) }
    ensures more { GoesOn octets.old.items octets.new.items }
{
    match scanner.scan_name_into(octets) {
        Ok(()) => Ok(()),
        Err(error) => Err(error),
    }
}

/// Scans a name that keeps its case.
fn scan_cased_name<S: EntryScanner>(scanner: &mut S, octets: &mut Vec<u8>) -> Result<(), S::Error>
    ensures ok { OnOk result (AppendsForm (S.names scanner.old) form_of.CasedName (S.tokens scanner.old) (S.tokens scanner.new)
        octets.old.items octets.new.items) }
    ensures err { IfErr result (λ error. S.Error.is_short error ≡ false
        → NoFormScans (S.names scanner.old) form_of.CasedName (S.tokens scanner.old)) }
    ensures names { SameNames (S.names scanner.old) (S.names scanner.new) }
    ensures more { GoesOn octets.old.items octets.new.items }
{
    match scanner.scan_name_into(octets) {
        Ok(()) => Ok(()),
        Err(error) => Err(error),
    }
}

/// Scans types, up to the end.
fn scan_types<S: EntryScanner>(scanner: &mut S, octets: &mut Vec<u8>) -> Result<(), S::Error>
    ensures ok { OnOk result (AppendsForm (S.names scanner.old) form_of.Types (S.tokens scanner.old) (S.tokens scanner.new)
        octets.old.items octets.new.items) }
    ensures err { IfErr result (λ error. S.Error.is_short error ≡ false
        → NoFormScans (S.names scanner.old) form_of.Types (S.tokens scanner.old)) }
    ensures names { SameNames (S.names scanner.old) (S.names scanner.new) }
    ensures more { GoesOn octets.old.items octets.new.items }
{
    match scan_types_into(scanner, octets) {
        Ok(()) => Ok(()),
        Err(error) => Err(error),
    }
}

/// Scans service parameters, up to the end.
fn scan_parameters<S: EntryScanner>(scanner: &mut S, octets: &mut Vec<u8>) -> Result<(), S::Error>
    ensures ok { OnOk result (AppendsForm (S.names scanner.old) form_of.Parameters (S.tokens scanner.old) (S.tokens scanner.new)
        octets.old.items octets.new.items) }
    ensures err { IfErr result (λ error. S.Error.is_short error ≡ false
        → NoFormScans (S.names scanner.old) form_of.Parameters (S.tokens scanner.old)) }
    ensures names { SameNames (S.names scanner.old) (S.names scanner.new) }
    ensures more { GoesOn octets.old.items octets.new.items }
{
    match scan_parameters_into(scanner, octets) {
        Ok(()) => Ok(()),
        Err(error) => Err(error),
    }
}

/// Scans a location, up to the end.
fn scan_location<S: EntryScanner>(scanner: &mut S, octets: &mut Vec<u8>) -> Result<(), S::Error>
    ensures ok { OnOk result (AppendsForm (S.names scanner.old) form_of.Location (S.tokens scanner.old) (S.tokens scanner.new)
        octets.old.items octets.new.items) }
    ensures err { IfErr result (λ error. S.Error.is_short error ≡ false
        → NoFormScans (S.names scanner.old) form_of.Location (S.tokens scanner.old)) }
    ensures names { SameNames (S.names scanner.old) (S.names scanner.new) }
    ensures more { GoesOn octets.old.items octets.new.items }
{
    match scan_location_into(scanner, octets) {
        Ok(()) => Ok(()),
        Err(error) => Err(error),
    }
}

/// Scans a type.
fn scan_rtype<S: EntryScanner>(scanner: &mut S, octets: &mut Vec<u8>) -> Result<(), S::Error>
    ensures ok { OnOk result (AppendsForm (S.names scanner.old) form_of.Rtype (S.tokens scanner.old) (S.tokens scanner.new)
        octets.old.items octets.new.items) }
    ensures err { IfErr result (λ error. S.Error.is_short error ≡ false
        → NoFormScans (S.names scanner.old) form_of.Rtype (S.tokens scanner.old)) }
    ensures names { SameNames (S.names scanner.old) (S.names scanner.new) }
    ensures more { GoesOn octets.old.items octets.new.items }
{
    match scanner.scan_ascii_str(type_in) {
        Ok(number) => append_number::<S>(octets, &number.to_be_bytes()),
        Err(error) => Err(error),
    }
}

/// Returns the number of the type that the text is a word of.
fn type_in(text: &str) -> Option<u16>
    ensures { result ≡ type_word_read text.now }
{
    read_type(text.as_bytes()).map(Rtype::to_int)
}

/// Scans an algorithm.
fn scan_algorithm<S: EntryScanner>(scanner: &mut S, octets: &mut Vec<u8>) -> Result<(), S::Error>
    ensures ok { OnOk result (AppendsForm (S.names scanner.old) form_of.Algorithm (S.tokens scanner.old) (S.tokens scanner.new)
        octets.old.items octets.new.items) }
    ensures err { IfErr result (λ error. S.Error.is_short error ≡ false
        → NoFormScans (S.names scanner.old) form_of.Algorithm (S.tokens scanner.old)) }
    ensures names { SameNames (S.names scanner.old) (S.names scanner.new) }
    ensures more { GoesOn octets.old.items octets.new.items }
{
    match scanner.scan_ascii_str(algorithm_in) {
        Ok(number) => append_number::<S>(octets, &[number]),
        Err(error) => Err(error),
    }
}

/// Returns the algorithm that the text is a word of.
fn algorithm_in(text: &str) -> Option<u8>
    ensures { result ≡ algorithm_read text.now }
{
    read_algorithm(text.as_bytes())
}

/// Scans a type of certificate.
fn scan_certificate_type<S: EntryScanner>(
    scanner: &mut S,
    octets: &mut Vec<u8>,
) -> Result<(), S::Error>
    ensures ok { OnOk result (AppendsForm (S.names scanner.old) form_of.CertificateType (S.tokens scanner.old) (S.tokens scanner.new)
        octets.old.items octets.new.items) }
    ensures err { IfErr result (λ error. S.Error.is_short error ≡ false
        → NoFormScans (S.names scanner.old) form_of.CertificateType (S.tokens scanner.old)) }
    ensures names { SameNames (S.names scanner.old) (S.names scanner.new) }
    ensures more { GoesOn octets.old.items octets.new.items }
{
    match scanner.scan_ascii_str(certificate_type_in) {
        Ok(number) => append_number::<S>(octets, &number.to_be_bytes()),
        Err(error) => Err(error),
    }
}

/// Returns the type of certificate that the text is a word of.
fn certificate_type_in(text: &str) -> Option<u16>
    ensures { result ≡ certificate_type_read text.now }
{
    read_certificate_type(text.as_bytes())
}

/// Scans a point in time.
fn scan_time<S: EntryScanner>(scanner: &mut S, octets: &mut Vec<u8>) -> Result<(), S::Error>
    ensures ok { OnOk result (AppendsForm (S.names scanner.old) form_of.Time (S.tokens scanner.old) (S.tokens scanner.new)
        octets.old.items octets.new.items) }
    ensures err { IfErr result (λ error. S.Error.is_short error ≡ false
        → NoFormScans (S.names scanner.old) form_of.Time (S.tokens scanner.old)) }
    ensures names { SameNames (S.names scanner.old) (S.names scanner.new) }
    ensures more { GoesOn octets.old.items octets.new.items }
{
    match scanner.scan_ascii_str(time_in) {
        Ok(time) => append_number::<S>(octets, &time.to_be_bytes()),
        Err(error) => Err(error),
    }
}

/// Returns the time that the text is of.
fn time_in(text: &str) -> Option<u32>
    ensures { result ≡ time_read text.now }
{
    read_time(text.as_bytes())
}

/// Scans a salt.
fn scan_salt<S: EntryScanner>(scanner: &mut S, octets: &mut Vec<u8>) -> Result<(), S::Error>
    ensures ok { OnOk result (AppendsForm (S.names scanner.old) form_of.Salt (S.tokens scanner.old) (S.tokens scanner.new)
        octets.old.items octets.new.items) }
    ensures err { IfErr result (λ error. S.Error.is_short error ≡ false
        → NoFormScans (S.names scanner.old) form_of.Salt (S.tokens scanner.old)) }
    ensures names { SameNames (S.names scanner.old) (S.names scanner.new) }
    ensures more { GoesOn octets.old.items octets.new.items }
{
    let word = match scan_word(*octets.allocator(), scanner) {
        Ok(word) => word,
        Err(error) => return Err(error),
    };
    match append_salt(word.as_slice(), octets) {
        Ok(()) => Ok(()),
        Err(error) => Err(word_error(error)),
    }
}

/// Scans a hash.
fn scan_hash<S: EntryScanner>(scanner: &mut S, octets: &mut Vec<u8>) -> Result<(), S::Error>
    ensures ok { OnOk result (AppendsForm (S.names scanner.old) form_of.Hash (S.tokens scanner.old) (S.tokens scanner.new)
        octets.old.items octets.new.items) }
    ensures err { IfErr result (λ error. S.Error.is_short error ≡ false
        → NoFormScans (S.names scanner.old) form_of.Hash (S.tokens scanner.old)) }
    ensures names { SameNames (S.names scanner.old) (S.names scanner.new) }
    ensures more { GoesOn octets.old.items octets.new.items }
{
    let word = match scan_word(*octets.allocator(), scanner) {
        Ok(word) => word,
        Err(error) => return Err(error),
    };
    match append_hash(word.as_slice(), octets) {
        Ok(()) => Ok(()),
        Err(error) => Err(word_error(error)),
    }
}

/// Scans a hardware address of six octets.
fn scan_eui48<S: EntryScanner>(scanner: &mut S, octets: &mut Vec<u8>) -> Result<(), S::Error>
    ensures ok { OnOk result (AppendsForm (S.names scanner.old) form_of.Eui48 (S.tokens scanner.old) (S.tokens scanner.new)
        octets.old.items octets.new.items) }
    ensures err { IfErr result (λ error. S.Error.is_short error ≡ false
        → NoFormScans (S.names scanner.old) form_of.Eui48 (S.tokens scanner.old)) }
    ensures names { SameNames (S.names scanner.old) (S.names scanner.new) }
    ensures more { GoesOn octets.old.items octets.new.items }
{
    let word = match scan_word(*octets.allocator(), scanner) {
        Ok(word) => word,
        Err(error) => return Err(error),
    };
    match append_hardware(word.as_slice(), 6, octets) {
        Ok(()) => Ok(()),
        Err(error) => Err(word_error(error)),
    }
}

/// Scans a hardware address of eight octets.
fn scan_eui64<S: EntryScanner>(scanner: &mut S, octets: &mut Vec<u8>) -> Result<(), S::Error>
    ensures ok { OnOk result (AppendsForm (S.names scanner.old) form_of.Eui64 (S.tokens scanner.old) (S.tokens scanner.new)
        octets.old.items octets.new.items) }
    ensures err { IfErr result (λ error. S.Error.is_short error ≡ false
        → NoFormScans (S.names scanner.old) form_of.Eui64 (S.tokens scanner.old)) }
    ensures names { SameNames (S.names scanner.old) (S.names scanner.new) }
    ensures more { GoesOn octets.old.items octets.new.items }
{
    let word = match scan_word(*octets.allocator(), scanner) {
        Ok(word) => word,
        Err(error) => return Err(error),
    };
    match append_hardware(word.as_slice(), 8, octets) {
        Ok(()) => Ok(()),
        Err(error) => Err(word_error(error)),
    }
}

/// Returns the scanner's error for a word whose octets were not appended.
fn word_error<Error: ScannerError>(error: WordError) -> Error
    ensures { Error.is_short result ≡ false → error ≡ Invalid }
{
    match error {
        WordError::Invalid => Error::custom("illegal word"),
        WordError::OutOfMemory => Error::short_buf(),
    }
}

/// Scans a word, and returns a copy of its text.
fn scan_word<S: EntryScanner>(alloc: Global, scanner: &mut S) -> Result<Vec<u8>, S::Error>
    ensures ok { IfOk result (λ text. Takes (IsWord text.items) (S.tokens scanner.old) (S.tokens scanner.new)) }
    ensures err { IfErr result (λ error. S.Error.is_short error ≡ false
        → (text : List ℕ) (left : List Token) → Takes (IsWord text) (S.tokens scanner.old) left → ⊥) }
    ensures names { SameNames (S.names scanner.old) (S.names scanner.new) }
{
    let copy = move |text: &str| -> Option<Result<Vec<u8>, AllocError>>
        ensures copy { IfSome result (λ copied. IfOk copied (λ octets. octets.items ≡ text.now)) }
        ensures some { IsSome result }
    { Some(Vec::from_slice(alloc, text.as_bytes())) };
    match scanner.scan_ascii_str(copy) {
        Ok(Ok(text)) => Ok(text),
        Ok(Err(_)) => Err(S::Error::short_buf()),
        Err(error) => Err(error),
    }
}

/// Appends the octets. Fails if there are none, and with `short_buf` if out of memory.
fn append_some<S: EntryScanner>(octets: &mut Vec<u8>, more: &[u8]) -> Result<(), S::Error>
    ensures ok { OnOk result ((more.now ≢ []) × (octets.new.items ≡ octets.old.items ++ more.now)) }
    ensures err { IfErr result (λ error. S.Error.is_short error ≡ false → more.now ≡ []) }
    ensures more { GoesOn octets.old.items octets.new.items }
{
    if more.is_empty() {
        return Err(S::Error::custom("no octets"));
    }
    append::<S>(octets, more)
}

/// Appends the octets. Fails with `short_buf` if out of memory.
fn append<S: EntryScanner>(octets: &mut Vec<u8>, more: &[u8]) -> Result<(), S::Error>
    ensures ok { OnOk result (octets.new.items ≡ octets.old.items ++ more.now) }
    ensures err { IfErr result (λ error. S.Error.is_short error ≡ true) }
    ensures more { GoesOn octets.old.items octets.new.items }
{
    match octets.extend_from_slice(more) {
        Ok(()) => Ok(()),
        Err(_) => Err(S::Error::short_buf()),
    }
}

/// Appends the octets of a number, which are few. Fails with `short_buf` if out of memory.
#[inline(always)]
fn append_number<S: EntryScanner>(octets: &mut Vec<u8>, number: &[u8]) -> Result<(), S::Error>
    ensures ok { OnOk result (octets.new.items ≡ octets.old.items ++ number.now) }
    ensures err { IfErr result (λ error. S.Error.is_short error ≡ true) }
    ensures more { GoesOn octets.old.items octets.new.items }
{
    if octets.reserve(number.len()).is_err() {
        return Err(S::Error::short_buf());
    }
    for index in 0..number.len() {
        octets.push_reserved(number[index]);
    }
    Ok(())
}
