//! How far a row reads as data of a further type.

use crate::outcome::read_or_refused;
use crate::reason::{Reason, Wanted};
use crate::token_row::{TokenFault, TokenRow};
use dns_entry_scanner::RowScanner;
use dns_field_texts::{
    WordError, append_hardware, append_hash, append_salt, read_algorithm, read_certificate_type,
    read_time, read_type, scan_location_into, split_first,
};
use dns_fields_more::{Form, scan_further_into};
use dns_name::Rtype;
use dns_service_parameters::scan_parameters_into;
use dns_text::{Scan, Scanner, base16, base64};
use std::alloc::AllocError;

impl<'t> TokenRow<'t> {
    /// Returns why the tokens from the index on are no data of the further type, whose fields have these forms, or None if
    /// they are. Fails if out of memory.
    pub(crate) fn further_fault(
        &self,
        index: usize,
        rtype: Rtype,
        forms: &[Form],
    ) -> Result<Option<TokenFault>, AllocError> {
        let mut scanner = self.scanner(index);
        let mut octets = Vec::new(self.alloc);
        let read = read_or_refused(scan_further_into(rtype, &mut scanner, &mut octets))?;
        if read.is_some() && !scanner.continues() {
            return Ok(None);
        }
        let mut at = index;
        for form in forms {
            if let Some(fault) = self.form_fault(at, *form)? {
                return Ok(Some(fault));
            }
            at = if takes_all(*form) {
                self.spans.len()
            } else {
                at.saturating_add(1)
            };
        }
        if at < self.spans.len() {
            return Ok(Some(TokenFault::at(at, Reason::Surplus)));
        }
        Ok(Some(TokenFault::at(index, Reason::LongData)))
    }

    /// Returns why no field of the form begins at the index, or None if one does. Fails if out of memory.
    fn form_fault(&self, at: usize, form: Form) -> Result<Option<TokenFault>, AllocError> {
        let (reads, wanted) = match form {
            Form::Number8 => (self.reads::<u8>(at)?, Wanted::Number8),
            Form::Number16 => (self.reads::<u16>(at)?, Wanted::Number16),
            Form::Number32 => (self.reads::<u32>(at)?, Wanted::Number32),
            Form::Name | Form::CasedName => return self.name_fault(at),
            Form::String => {
                let string = read_or_refused(self.scanner(at).scan_charstr())?;
                (string.is_some(), Wanted::CharacterString)
            }
            Form::RestText => (at < self.spans.len(), Wanted::Text),
            Form::Rest16 | Form::Rest64 => return self.encoded_fault(at, form),
            Form::Rtype => (self.is_type(at), Wanted::RecordType),
            Form::Algorithm => (self.is_algorithm(at), Wanted::Algorithm),
            Form::CertificateType => (self.is_certificate_type(at), Wanted::CertificateType),
            Form::Time => (self.is_time(at), Wanted::Time),
            Form::Salt => (self.is_word_of(at, form)?, Wanted::Salt),
            Form::Hash => (self.is_word_of(at, form)?, Wanted::Hash),
            Form::Eui48 => (self.is_word_of(at, form)?, Wanted::Eui48),
            Form::Eui64 => (self.is_word_of(at, form)?, Wanted::Eui64),
            Form::Types => return Ok(self.types_fault(at)),
            Form::Parameters => return self.parameters_fault(at),
            Form::Location => return self.location_fault(at),
        };
        if reads {
            return Ok(None);
        }
        Ok(Some(self.unlike(at, wanted)))
    }

    /// Returns whether the token at the index is a number. Fails if out of memory.
    fn reads<T: Scan<RowScanner<'t>> + Drop>(&self, at: usize) -> Result<bool, AllocError> {
        Ok(read_or_refused(T::scan(&mut self.scanner(at)))?.is_some())
    }

    fn is_type(&self, at: usize) -> bool {
        match self.bare(at) {
            Some(text) => read_type(text).is_some(),
            None => false,
        }
    }

    fn is_algorithm(&self, at: usize) -> bool {
        match self.bare(at) {
            Some(text) => read_algorithm(text).is_some(),
            None => false,
        }
    }

    fn is_certificate_type(&self, at: usize) -> bool {
        match self.bare(at) {
            Some(text) => read_certificate_type(text).is_some(),
            None => false,
        }
    }

    fn is_time(&self, at: usize) -> bool {
        match self.bare(at) {
            Some(text) => read_time(text).is_some(),
            None => false,
        }
    }

    /// Returns whether the token at the index is a salt, a hash or a hardware address, as the form says. Fails if out of
    /// memory.
    fn is_word_of(&self, at: usize, form: Form) -> Result<bool, AllocError> {
        let Some(text) = self.bare(at) else {
            return Ok(false);
        };
        let mut octets = Vec::new(self.alloc);
        let appended = match form {
            Form::Salt => append_salt(text, &mut octets),
            Form::Hash => append_hash(text, &mut octets),
            Form::Eui48 => append_hardware(text, 6, &mut octets),
            _ => append_hardware(text, 8, &mut octets),
        };
        match appended {
            Ok(()) => Ok(true),
            Err(WordError::Invalid) => Ok(false),
            Err(WordError::OutOfMemory) => Err(AllocError),
        }
    }

    /// Returns why the tokens from the index on are not of the encoding, or None if they are. Fails if out of memory.
    fn encoded_fault(&self, index: usize, form: Form) -> Result<Option<TokenFault>, AllocError> {
        let mut scanner = self.scanner(index);
        let (data, wanted) = match form {
            Form::Rest16 => (base16::scan_entry(&mut scanner), Wanted::Base16),
            _ => (base64::scan_entry(&mut scanner), Wanted::Base64),
        };
        let reads = read_or_refused(data)?.is_some();
        if reads && index < self.spans.len() {
            return Ok(None);
        }
        Ok(Some(self.unlike(self.first_unlike(index, wanted), wanted)))
    }

    /// Returns that a token from the index on is no type, or None if each is one.
    fn types_fault(&self, index: usize) -> Option<TokenFault> {
        for at in index..self.spans.len() {
            if !self.is_type(at) {
                return Some(self.unlike(at, Wanted::RecordType));
            }
        }
        None
    }

    /// Returns where the tokens from the index on go on as no location, or None if they are one. Fails if out of memory.
    fn location_fault(&self, index: usize) -> Result<Option<TokenFault>, AllocError> {
        let mut scanner = self.scanner(index);
        let mut octets = Vec::new(self.alloc);
        if read_or_refused(scan_location_into(&mut scanner, &mut octets))?.is_some() {
            return Ok(None);
        }
        let mut at = self.spans.len();
        for _ in index..self.spans.len() {
            if !scanner.continues() {
                break;
            }
            scanner.skip_token();
            at = at.saturating_sub(1);
        }
        Ok(Some(self.unlike(at, Wanted::Location)))
    }

    /// Returns which token from the index on is no service parameter, or that the parameters are not together, or None if
    /// they are. Fails if out of memory.
    fn parameters_fault(&self, index: usize) -> Result<Option<TokenFault>, AllocError> {
        if self.are_parameters(index, self.spans.len())? {
            return Ok(None);
        }
        let mut next = index;
        for at in index..self.spans.len() {
            if at < next {
                continue;
            }
            next = self.parameter_end(at);
            if !self.has_rule(at) && !self.are_parameters(at, next)? {
                return Ok(Some(self.unlike(at, Wanted::Parameter)));
            }
        }
        Ok(Some(TokenFault::at(index, Reason::OtherKeys)))
    }

    /// Returns whether the tokens from the start up to the end are service parameters. Fails if out of memory.
    fn are_parameters(&self, start: usize, end: usize) -> Result<bool, AllocError> {
        let end = end.min(self.spans.len());
        let mut scanner: RowScanner<'_> = RowScanner::new(
            self.alloc,
            self.text,
            self.place,
            &self.spans[start.min(end)..end],
            None,
        );
        let mut octets = Vec::new(self.alloc);
        Ok(read_or_refused(scan_parameters_into(&mut scanner, &mut octets))?.is_some())
    }

    /// Returns the index after the parameter at the index: after its value, if that is a quoted token of its own.
    fn parameter_end(&self, at: usize) -> usize {
        let next = at.saturating_add(1);
        let is_open = match split_first(self.bare(at).unwrap_or(&[]), b'=') {
            (_, Some(value)) => value.is_empty(),
            (_, None) => false,
        };
        let is_quoted = match self.spans.get(next) {
            Some(span) => span.is_quoted(),
            None => false,
        };
        next.saturating_add(usize::from(is_open && is_quoted))
    }

    /// Returns whether the key at the index wants other keys to be there (RFC 9460 7.1.1, 8).
    fn has_rule(&self, at: usize) -> bool {
        let (key, _) = split_first(self.bare(at).unwrap_or(&[]), b'=');
        key == b"mandatory".as_slice() || key == b"no-default-alpn".as_slice()
    }
}

/// Returns whether a field of the form takes all tokens that are left.
fn takes_all(form: Form) -> bool {
    matches!(
        form,
        Form::Rest16 | Form::Rest64 | Form::Types | Form::Parameters | Form::Location
    )
}
