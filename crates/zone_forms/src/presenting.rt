//! Rows with further data in presentation form.
ghost use Rattle.std.specs.Prelude.{◌≡◌, ◌↔◌, ◌<◌, ◌≤◌, ℕ, List, true, length, string_bytes, take, option_copied, IsTrue, IfErr, IfNone, IfOk, IfSome};
ghost use Rattle.dns_entry_scanner.specs.EntryError.{is_memory};
ghost use Rattle.dns_entry_scanner.specs.NameInText.{SpellsUnder};
ghost use Rattle.dns_field_texts.specs.TypeWords.{type_word_written};
ghost use Rattle.dns_label.specs.Octets.{AreOctets};
ghost use Rattle.dns_fields_more.specs.Forms.{IsFurtherData};
ghost use Rattle.dns_rdata_more.specs.Shown.{further_document};
ghost use Rattle.dns_text.specs.Document.{document_text};
ghost use Rattle.dns_text.specs.Document.Layout.{Simple};
ghost use Rattle.dns_text.specs.Layout.{layout_of};
ghost use Rattle.zone_forms.specs.Presented.{GoesPresented, HasFieldsText, HasPresentation};
ghost use Rattle.zone_forms.specs.Presenting.{HasSameFront, PrintsAs, PrintsRow, ReadsBack};
ghost use Rattle.zone_general.specs.Seen.{HasTypeAt, IsFound, row_in, tokens_in};

use crate::text_form::TextForm;
use dns_field_texts::DisplayType;
use dns_name::{Name, Rtype};
use dns_rdata_more::AnyFurtherData;
use dns_rdata_more::laws::printed_further_data_scans_back;
use dns_text::{DisplayKind, ZonefileFmt};
use dns_zonefile::{EntryError, InlineName, RowFound, RowScanner, read_row};
use std::alloc::Global;
use std::fmt::Write;
use zone_general::{
    FoundRow, LongerReader, RowType, append_rewritten, is_marked, is_want_of_memory, row_type,
    scan_data,
};

/// The presentation form.
#[derive(Drop)]
pub(crate) struct Presenter {
    alloc: Global,
    kind: DisplayKind,
}

impl Presenter {
    /// Returns the form in which data is laid out as the kind says.
    pub(crate) fn new(alloc: Global, kind: DisplayKind) -> Self
        ensures { result.kind ≡ kind }
    {
        Presenter { alloc, kind }
    }
}

impl TextForm for Presenter {
    ghost layout = { λ presenter. layout_of presenter.kind };

    ghost goes = { GoesPresented };

    fn append_row(
        &mut self,
        reader: &mut LongerReader,
        row: FoundRow<'_>,
        out: &mut Vec<u8>,
    ) -> Result<(), EntryError> {
        let printed = printed_row(self.alloc, self.kind, reader.origin(), row)?;
        let len = out.len();
        reader.read_entry(row, out)?;
        // The general row is not asked for.
        out.truncate(len);
        match printed {
            Some(printed) => Ok(out.extend_from_slice(&printed)?),
            None => Ok(out.extend_from_slice(row.octets())?),
        }
    }
}

/// Returns the row in presentation form, if its data is in general form and is data of a further type whose fields have a text.
/// It is printed in the layout, or if that does not read as the row, on one line.
///
/// Fails only with `OutOfMemory`.
fn printed_row<'a>(
    alloc: Global,
    layout: DisplayKind,
    origin: Option<&'a Name<Vec<u8>>>,
    row: FoundRow<'a>,
) -> Result<Option<Vec<u8>>, EntryError>
    requires { IsFound row }
    ensures ok { IfOk result (λ printed. IfSome printed (λ octets. PrintsRow (SpellsUnder (option_copied origin.entry)) row.entry
        (layout_of layout) octets.items)) }
    ensures none { IfOk result (λ printed. IfNone printed (HasPresentation (SpellsUnder (option_copied origin.entry)) (row_in row.entry) → ⊥)) }
    ensures err { IfErr result (λ error. is_memory error ≡ true) }
{
    let Some(kind) = row_type(row) else {
        return Ok(None);
    };
    if !is_marked(row, kind.index) {
        return Ok(None);
    }
    let mut data = Vec::new(alloc);
    match scan_data(alloc, row, kind, origin, &mut data) {
        Ok(()) => {}
        Err(error) => {
            if is_want_of_memory(error) {
                return Err(error);
            }
            return Ok(None);
        }
    }
    match printed_as(alloc, layout, origin, row, kind, &data)? {
        Some(printed) => Ok(Some(printed)),
        None => printed_as(alloc, DisplayKind::Simple, origin, row, kind, &data),
    }
}

/// Returns the row with these octets of data as fields in the layout, if they are data of a further type and what is printed
/// reads as the row. On one line it does if the fields have a text.
///
/// Fails only with `OutOfMemory`.
fn printed_as<'a>(
    alloc: Global,
    layout: DisplayKind,
    origin: Option<&'a Name<Vec<u8>>>,
    row: FoundRow<'a>,
    kind: RowType,
    data: &[u8],
) -> Result<Option<Vec<u8>>, EntryError>
    requires found { IsFound row }
    requires has { HasTypeAt (row_in row) kind }
    ensures ok { IfOk result (λ printed. IfSome printed (λ octets. PrintsAs (SpellsUnder (option_copied origin.entry)) row.entry kind
        (layout_of layout) data.now octets.items)) }
    ensures none { IfOk result (λ printed. IfNone printed (layout_of layout ≡ Simple → HasFieldsText kind.rtype data.now → ⊥)) }
    ensures err { IfErr result (λ error. is_memory error ≡ true) }
{
    // Nothing happens here: the law tells the proof that what is printed is scanned as the same data.
    let scanner: RowScanner<'_, InlineName> = RowScanner::new(
        alloc, row.text, row.place, row.spans, origin,
    );
    printed_further_data_scans_back(&scanner);
    let rtype = Rtype::from_int(kind.rtype);
    let Some(text) = fields_text(alloc, layout, rtype, data)? else {
        return Ok(None);
    };
    let word = mnemonic(alloc, rtype)?;
    let mut printed = Vec::new(alloc);
    append_rewritten(
        row,
        kind.index,
        word.as_bytes(),
        text.as_bytes(),
        &mut printed,
    )?;
    if reads_back(alloc, origin, row, kind, data, &printed)? {
        Ok(Some(printed))
    } else {
        Ok(None)
    }
}

/// Returns the text of the fields that the octets are, or None if they are no data of a further type.
///
/// Fails only with `OutOfMemory`.
fn fields_text(
    alloc: Global,
    layout: DisplayKind,
    rtype: Rtype,
    octets: &[u8],
) -> Result<Option<String>, EntryError>
    ensures ok { IfOk result (λ text. IfSome text (λ text. IsFurtherData rtype octets.now
        × (string_bytes text ≡ document_text (layout_of layout) (further_document rtype octets.now)))) }
    ensures none { IfOk result (λ text. IfNone text (IsFurtherData rtype octets.now → ⊥)) }
    ensures err { IfErr result (λ error. is_memory error ≡ true) }
{
    let Ok(data) = AnyFurtherData::from_octets(rtype, octets) else {
        return Ok(None);
    };
    let mut text = String::new(alloc);
    match write!(text, "{}", data.display_zonefile(layout)) {
        Ok(()) => Ok(Some(text)),
        Err(_) => Err(EntryError::OutOfMemory),
    }
}

/// Returns the word for the type.
fn mnemonic(alloc: Global, rtype: Rtype) -> Result<String, EntryError>
    ensures ok { IfOk result (λ text. string_bytes text ≡ type_word_written rtype) }
    ensures err { IfErr result (λ error. is_memory error ≡ true) }
{
    let mut text = String::new(alloc);
    match write!(text, "{}", DisplayType(rtype)) {
        Ok(()) => Ok(text),
        Err(_) => Err(EntryError::OutOfMemory),
    }
}

/// Returns whether what was printed is a row with the same tokens before its type, the same type, and these octets of data,
/// not in general form.
///
/// Fails only with `OutOfMemory`.
fn reads_back<'a>(
    alloc: Global,
    origin: Option<&'a Name<Vec<u8>>>,
    row: FoundRow<'a>,
    kind: RowType,
    data: &[u8],
    printed: &'a [u8],
) -> Result<bool, EntryError>
    requires { HasTypeAt (row_in row) kind }
    ensures ok { IfOk result (λ alike. IsTrue alike
        ↔ ReadsBack (SpellsUnder (option_copied origin.entry)) (row_in row.entry) kind data.now printed.now) }
    ensures err { IfErr result (λ error. is_memory error ≡ true) }
{
    let mut spans = Vec::new(alloc);
    let RowFound::Row { next, blank_led } = read_row(printed, 0, &mut spans)? else {
        return Ok(false);
    };
    if next != printed.len() || blank_led != row.blank_led {
        return Ok(false);
    }
    let other = FoundRow {
        text: printed,
        place: 0,
        next,
        spans: &spans,
        blank_led,
    };
    if !has_same_front(row, other, kind) {
        return Ok(false);
    }
    let mut octets = Vec::new(alloc);
    match scan_data(alloc, other, kind, origin, &mut octets) {
        Ok(()) => {
            are_octets(data);
            are_octets(octets.as_slice());
            Ok(octets.as_slice() == data)
        }
        Err(error) => {
            if is_want_of_memory(error) {
                return Err(error);
            }
            Ok(false)
        }
    }
}

/// Does nothing. It tells the proof what the type guarantees: that each of these is an octet.
fn are_octets(_octets: &[u8])
    ensures { AreOctets _octets.now }
{}

/// Returns whether the other row has the same type at the same place, behind the same tokens, and data that is not in general
/// form.
fn has_same_front(row: FoundRow<'_>, other: FoundRow<'_>, kind: RowType) -> bool
    requires { kind.index < length row.spans.now }
    ensures { IsTrue result ↔ HasSameFront (row_in row.entry) (row_in other.entry) kind }
{
    let Some(found) = row_type(other) else {
        return false;
    };
    if found.index != kind.index || found.rtype != kind.rtype {
        return false;
    }
    !is_marked(other, kind.index) && have_same_tokens(row, other, kind.index)
}

/// Returns whether so many tokens at the start of both rows are the same.
fn have_same_tokens(row: FoundRow<'_>, other: FoundRow<'_>, count: usize) -> bool
    requires row { count ≤ length row.spans.now }
    requires other { count ≤ length other.spans.now }
    ensures { IsTrue result ↔ (take count (tokens_in other.entry) ≡ take count (tokens_in row.entry)) }
{
    for index in 0..count {
        if row.spans[index].is_quoted() != other.spans[index].is_quoted()
            || row.token(index) != other.token(index)
        {
            return false;
        }
    }
    true
}
