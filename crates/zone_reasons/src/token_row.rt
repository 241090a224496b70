//! A row of a zone's text that has tokens, and how far it reads as an entry.
ghost use Rattle.std.specs.Prelude.{◌≡◌, IfOk};
ghost use Rattle.zone_reasons.specs.Located.{IsPlaceIn};

use crate::fields::{FieldFault, FirstFault};
use crate::located::Located;
use crate::outcome::read_or_refused;
use crate::reason::{Reason, Wanted};
use crate::words::{HeadWord, begins_with_dollar, head_word, is_encoded, number16, word_reason};
use dns_entry_scanner::{EntryError, RowScanner, ScannedName, TokenSpan};
use dns_fields_more::forms_of;
use dns_name::{Class, FromBuilder, Name, Rtype, ToName};
use dns_rdata::with_types;
use dns_text::Scanner;
use std::alloc::{AllocError, Global};

/// A row with tokens of a zone's text, and what the rows before it have set.
#[derive(Clone, Copy)]
pub struct TokenRow<'t> {
    /// What is scanned of the row is allocated with it.
    pub alloc: Global,
    /// The zone's text.
    pub text: &'t [u8],
    /// The offset of the row in the text.
    pub place: usize,
    /// Whether the row begins with white space.
    pub blank_led: bool,
    /// The places of its tokens in the text.
    pub spans: &'t [TokenSpan],
    /// The origin of relative names.
    pub origin: Option<&'t Name<Vec<u8>>>,
    /// Whether a record is before it.
    pub has_owner: bool,
    /// The zone's class.
    pub class: Class,
}

/// Which token of a row is wrong, and why.
#[derive(Clone, Copy)]
pub(crate) struct TokenFault {
    /// The index of the token, or the number of the tokens if one is missing.
    pub(crate) index: usize,
    pub(crate) reason: Reason,
}

impl TokenFault {
    /// Returns that the token at the index is wrong, for this reason.
    pub(crate) fn at(index: usize, reason: Reason) -> Self
        ensures index { result.index ≡ index }
        ensures reason { result.reason ≡ reason }
    {
        TokenFault { index, reason }
    }
}

/// The part of a record before its data.
#[derive(Clone, Copy)]
struct Head {
    rtype: Rtype,
    /// Whether zones know the word for the type.
    known: bool,
    /// The index of the word for the type.
    word: usize,
    /// The index of the first token of data.
    data: usize,
    /// The index of the class, if it is another than the zone's.
    other_class: Option<usize>,
}

/// How far data of a type reads.
#[derive(Clone, Copy)]
enum TypedData {
    /// The type has no fields.
    NoFields,
    /// A field cannot be read.
    Fault(FieldFault),
    /// All fields are read, and so many tokens are left.
    Read(usize),
}

impl<'t> TokenRow<'t> {
    /// Returns why the row is no entry, and where in the text: at the first token from the left that does not read, or after the
    /// last one if another is wanted. In a shorter text than that of the row, the place ends where that text ends.
    ///
    /// Fails if out of memory.
    pub fn fault(&self) -> Result<Located, AllocError>
        ensures { IfOk result (IsPlaceIn self.now.text.now) }
    {
        Ok(self.located(self.token_fault()?))
    }

    /// Returns the fault with the place of its token, or that after the last token.
    fn located(&self, fault: TokenFault) -> Located
        ensures reason { result.reason ≡ fault.reason }
        ensures place { IsPlaceIn self.now.text.now result }
    {
        if let Some(span) = self.spans.get(fault.index) {
            return Located::within(self.text, fault.reason, span.start(), span.len());
        }
        let end = match self.spans.last() {
            Some(span) => end_of(span),
            None => self.place,
        };
        Located::within(self.text, fault.reason, end, 0)
    }

    /// Returns which token is wrong, and why. Fails if out of memory.
    fn token_fault(&self) -> Result<TokenFault, AllocError> {
        if self.begins_directive() {
            return self.directive_fault();
        }
        let owners = usize::from(!self.blank_led);
        if owners > 0 {
            if let Some(fault) = self.name_fault(0)? {
                return Ok(fault);
            }
        }
        match self.head(owners) {
            Ok(head) => self.data_fault(head),
            Err(fault) => Ok(fault),
        }
    }

    /// Returns that the token at the index is not what is wanted, or is missing.
    pub(crate) fn unlike(&self, index: usize, wanted: Wanted) -> TokenFault {
        let reason = match self.spans.get(index) {
            Some(span) if span.is_quoted() && !is_string(wanted) => Reason::Quoted,
            Some(_) => Reason::Not(wanted),
            None => Reason::Missing(wanted),
        };
        TokenFault::at(index, reason)
    }

    /// Returns the places of the tokens from the index on.
    fn spans_from(&self, index: usize) -> &'t [TokenSpan] {
        &self.spans[index.min(self.spans.len())..]
    }

    /// Returns a scanner over the tokens from the index on.
    pub(crate) fn scanner(&self, index: usize) -> RowScanner<'t> {
        RowScanner::new(
            self.alloc,
            self.text,
            self.place,
            self.spans_from(index),
            self.origin,
        )
    }

    /// Returns the text of the token at the index, if it is unquoted.
    pub(crate) fn bare(&self, index: usize) -> Option<&'t [u8]> {
        let span = self.spans.get(index)?;
        if span.is_quoted() {
            return None;
        }
        Some(span.text(self.text))
    }

    fn begins_directive(&self) -> bool {
        match self.bare(0) {
            Some(text) => !self.blank_led && begins_with_dollar(text),
            None => false,
        }
    }

    fn directive_fault(&self) -> Result<TokenFault, AllocError> {
        let word = self.bare(0).unwrap_or(&[]);
        let (fault, most) = if word.eq_ignore_ascii_case(b"$origin") {
            (self.name_fault(1)?, 2)
        } else if word.eq_ignore_ascii_case(b"$ttl") {
            (self.ttl_fault(1), 2)
        } else if word.eq_ignore_ascii_case(b"$include") {
            let path = self.bare(1).is_some_and(<[u8]>::is_ascii);
            let origin = self.spans.len() > 2;
            let fault = if !path {
                Some(self.unlike(1, Wanted::Path))
            } else if origin {
                self.name_fault(2)?
            } else {
                None
            };
            (fault, 3)
        } else {
            (Some(TokenFault::at(0, Reason::UnknownDirective)), 1)
        };
        Ok(fault.unwrap_or(TokenFault::at(most, Reason::Surplus)))
    }

    /// Returns why the token at the index is no name, or None if it is one. Fails if out of memory.
    pub(crate) fn name_fault(&self, index: usize) -> Result<Option<TokenFault>, AllocError> {
        if read_or_refused(self.scanner(index).scan_name())?.is_some() {
            return Ok(None);
        }
        let root = Name::root_vec(self.alloc)?;
        let is_relative = self.origin.is_none() && self.is_name_under(index, &root)?;
        if is_relative {
            return Ok(Some(TokenFault::at(index, Reason::NoOrigin)));
        }
        Ok(Some(self.unlike(index, Wanted::Name)))
    }

    /// Returns whether the token at the index is a name under the origin. Fails if out of memory.
    fn is_name_under(&self, index: usize, origin: &Name<Vec<u8>>) -> Result<bool, AllocError> {
        let left = self.spans_from(index);
        let mut scanner: RowScanner<'_> = RowScanner::new(
            self.alloc,
            self.text,
            self.place,
            left,
            Some(origin),
        );
        Ok(read_or_refused(scanner.scan_name())?.is_some())
    }

    fn ttl_fault(&self, index: usize) -> Option<TokenFault> {
        match self.bare(index) {
            Some(text) => match head_word(text) {
                HeadWord::Ttl => None,
                _ => Some(TokenFault::at(index, word_reason(text, Wanted::Ttl))),
            },
            None => Some(self.unlike(index, Wanted::Ttl)),
        }
    }

    /// Reads the TTL and the class, if they are stated, and the type. They begin at the index.
    fn head(&self, index: usize) -> Result<Head, TokenFault> {
        let mut has_ttl = false;
        let mut class = None;
        for at in index..self.spans.len() {
            let Some(text) = self.bare(at) else {
                return Err(self.unlike(at, Wanted::Type));
            };
            match head_word(text) {
                HeadWord::Ttl if !has_ttl => has_ttl = true,
                HeadWord::Class(stated) if class.is_none() => class = Some((at, stated)),
                HeadWord::Ttl | HeadWord::Class(_) => return Err(TokenFault::at(
                    at,
                    Reason::StatedTwice,
                )),
                HeadWord::Type(rtype) => return Ok(self.head_of(at, rtype, true, class)),
                HeadWord::FurtherType(rtype) => return Ok(self.head_of(at, rtype, false, class)),
                HeadWord::Other => return Err(TokenFault::at(at, word_reason(text, Wanted::Type))),
            }
        }
        Err(self.unlike(self.spans.len(), Wanted::Type))
    }

    /// Returns the head whose type is stated at the index, behind this class if one is stated.
    fn head_of(
        &self,
        word: usize,
        rtype: Rtype,
        known: bool,
        class: Option<(usize, Class)>,
    ) -> Head {
        let other_class = match class {
            Some((at, stated)) if stated != self.class => Some(at),
            _ => None,
        };
        Head {
            rtype,
            known,
            word,
            data: word.saturating_add(1),
            other_class,
        }
    }

    /// Returns why the data is refused, or, if it is not, why the record is. Fails if out of memory.
    fn data_fault(&self, head: Head) -> Result<TokenFault, AllocError> {
        if self.bare(head.data) == Some(b"\\#") {
            if let Some(fault) = self.general_fault(head.data.saturating_add(1)) {
                return Ok(fault);
            }
            return Ok(self.context_fault(head));
        }
        let rtype = head.rtype;
        if let Some(forms) = forms_of(rtype) {
            let fault = self.further_fault(head.data, rtype, forms)?;
            return Ok(fault.unwrap_or(self.form_only(head)));
        }
        let mut scanner = self.scanner(head.data);
        match typed_data(rtype, &mut scanner, self.spans.len())? {
            TypedData::NoFields => Ok(self.form_only(head)),
            TypedData::Fault(fault) => self.field_fault(head.data, fault),
            TypedData::Read(0) => Ok(self.context_fault(head)),
            TypedData::Read(left) => {
                Ok(TokenFault::at(self.spans.len().saturating_sub(left), Reason::Surplus))
            }
        }
    }

    /// Returns why a field of data is refused. Data begins at the index. Fails if out of memory.
    fn field_fault(&self, index: usize, fault: FieldFault) -> Result<TokenFault, AllocError> {
        let at = index.saturating_add(fault.before);
        match fault.wanted {
            Wanted::Name => {
                let name = self.name_fault(at)?;
                Ok(name.unwrap_or(self.unlike(at, Wanted::Name)))
            }
            Wanted::CharacterString => {
                let first = self.first_no_string(at)?;
                Ok(self.unlike(first, fault.wanted))
            }
            Wanted::Base16 | Wanted::Base64 => {
                let last = self.first_unlike(at, fault.wanted);
                Ok(self.unlike(last, fault.wanted))
            }
            wanted => Ok(self.unlike(at, wanted)),
        }
    }

    /// Returns the index of the first token from the index on that is no string of at most 255 octets, or the number of
    /// tokens. Fails if out of memory.
    fn first_no_string(&self, index: usize) -> Result<usize, AllocError> {
        for at in index..self.spans.len() {
            if read_or_refused(self.scanner(at).scan_charstr())?.is_none() {
                return Ok(at);
            }
        }
        Ok(self.spans.len())
    }

    /// Returns the index of the first token from the index on that has characters of another encoding, or of the last one.
    pub(crate) fn first_unlike(&self, index: usize, encoding: Wanted) -> usize {
        for at in index..self.spans.len() {
            match self.bare(at) {
                Some(text) if is_encoded(encoding, text) => {}
                _ => return at,
            }
        }
        index.max(self.spans.len().saturating_sub(1))
    }

    /// Returns why the general form is refused, whose length is at the index (RFC 3597 5), or None if it is read.
    fn general_fault(&self, index: usize) -> Option<TokenFault> {
        let count = match self.bare(index) {
            Some(text) => match number16(text) {
                Some(count) => usize::from(count),
                None => return Some(self.unlike(index, Wanted::Number16)),
            },
            None => return Some(self.unlike(index, Wanted::Number16)),
        };
        let mut digits: usize = 0;
        for at in index.saturating_add(1)..self.spans.len() {
            match self.bare(at) {
                Some(text) if is_encoded(Wanted::Base16, text) => {
                    digits = digits.saturating_add(text.len());
                }
                _ => return Some(self.unlike(at, Wanted::Base16)),
            }
        }
        if digits != 2 * count {
            return Some(TokenFault::at(index, Reason::OtherCount));
        }
        None
    }

    /// Returns that data of the type is only read in the general form, or if its word is not known, that it is not.
    fn form_only(&self, head: Head) -> TokenFault {
        if head.known {
            return TokenFault::at(head.data, Reason::GeneralFormOnly(head.rtype));
        }
        TokenFault::at(head.word, Reason::Not(Wanted::Type))
    }

    /// Returns why the record is refused although its data reads.
    fn context_fault(&self, head: Head) -> TokenFault {
        if !head.known {
            return TokenFault::at(head.word, Reason::Not(Wanted::Type));
        }
        if self.blank_led && !self.has_owner {
            return TokenFault::at(0, Reason::NoOwner);
        }
        match head.other_class {
            Some(index) => TokenFault::at(index, Reason::OtherClass),
            None => TokenFault::at(head.data, Reason::LongData),
        }
    }
}

/// Returns the offset after the token, and after its closing quote if it has one.
fn end_of(span: &TokenSpan) -> usize {
    let end = span.start().saturating_add(span.len());
    end.saturating_add(usize::from(span.is_quoted()))
}

/// Returns whether the reason for a token says itself whether it may be quoted.
fn is_string(wanted: Wanted) -> bool {
    matches!(
        wanted,
        Wanted::CharacterString | Wanted::Tag | Wanted::Text | Wanted::Path
    )
}

/// Returns how far the tokens read as data of the type.
macro_rules! first_fault {
    (($type:ident, $scanner:ident, $S:ident) $($variant:ident = $rtype:ident: $row:ty,)*) => {
        match $type {
            $(Rtype::$rtype => <$row as FirstFault<$S>>::first_fault($scanner)?,)*
            _ => return Ok(TypedData::NoFields),
        }
    };
}

/// Returns how far the tokens, of which there are at most so many, read as data of the type. Fails if out of memory.
fn typed_data<N, Octs, S: Scanner<Name = N, Octets = Octs, Error = EntryError>>(
    rtype: Rtype,
    scanner: &mut S,
    most: usize,
) -> Result<TypedData, AllocError>
where
    N: ToName + Drop,
    Octs: FromBuilder + Drop,
{
    let fault = with_types!(first_fault, rtype, scanner, S);
    if let Some(fault) = fault {
        return Ok(TypedData::Fault(fault));
    }
    let mut left: usize = 0;
    for _ in 0..most {
        if !scanner.continues() {
            break;
        }
        scanner.skip_token();
        left = left.saturating_add(1);
    }
    Ok(TypedData::Read(left))
}
