//! Texts of zones in another form.
ghost use Rattle.std.specs.Prelude.{◌≡◌, List, ℕ, Some, option_copied, IfErr, IfOk};
ghost use Rattle.dns_text.specs.Layout.{layout_of};
ghost use Rattle.dns_zonefile.specs.Entry as spec;
ghost use Rattle.dns_zonefile.specs.Entry.{at_start};
ghost use Rattle.zone_forms.specs.Presented.{IsGeneralOf, IsPresentedOf};
ghost use Rattle.zone_forms.specs.Refused.{FailsInLine};
ghost use Rattle.zone_forms.specs.Going.{GoesTo};
ghost use Rattle.zone_general.specs.Seen.{context_in};
ghost use Rattle.zone_forms.specs.declared.error.FormError.TheVariants.{Line};

use crate::FormError;
use crate::presenting::Presenter;
use crate::rows::{append_rows, error_at};
use crate::text_form::{GeneralForm, TextForm};
use dns_name::{Class, Name};
use dns_text::DisplayKind;
use std::alloc::Global;
use zone_general::LongerReader;

/// Returns the text with the data of further types in general form (RFC 3597 5), where it is in presentation form. All else
/// stays as it is, but a word for a type that only this crate knows becomes `TYPE` and its number.
///
/// The entries are those of a file of the class; names are relative to the origin, if there is one. Fails with `Line` exactly
/// if a row is no entry, and with `OutOfMemory` if out of memory. A `Rewriter` takes a text in pieces.
pub fn general(
    alloc: Global,
    text: &[u8],
    origin: Option<&Name<&[u8]>>,
    class: Class,
) -> Result<Vec<u8>, FormError>
    ensures ok { IfOk result (λ new. IsGeneralOf (at_start (option_copied origin.entry) (Some class)) text.now new.items) }
    ensures err { IfErr result (λ error. (line : ℕ) → error ≡ Line line
        → FailsInLine (at_start (option_copied origin.entry) (Some class)) text.now line) }
{
    let Ok(mut reader) = LongerReader::new(alloc, origin, class) else {
        return Err(FormError::OutOfMemory);
    };
    rewrite(alloc, text, &mut reader, &mut GeneralForm)
}

/// Returns the text with the data of further types in presentation form, where it is in general form and its fields have a
/// text: all but data whose digest, certificate, key or signature has no octets. It is laid out as the kind says, but on one
/// line if that does not read, as inside parentheses. All else stays as it is, but the word for the type becomes its mnemonic.
///
/// The entries are those of a file of the class; names are relative to the origin, if there is one. Fails with `Line` exactly
/// if a row is no entry, and with `OutOfMemory` if out of memory. A `Rewriter` takes a text in pieces.
pub fn present(
    alloc: Global,
    text: &[u8],
    origin: Option<&Name<&[u8]>>,
    class: Class,
    kind: DisplayKind,
) -> Result<Vec<u8>, FormError>
    ensures ok { IfOk result (λ new. IsPresentedOf (layout_of kind) (at_start (option_copied origin.entry) (Some class)) text.now new.items) }
    ensures err { IfErr result (λ error. (line : ℕ) → error ≡ Line line
        → FailsInLine (at_start (option_copied origin.entry) (Some class)) text.now line) }
{
    let Ok(mut reader) = LongerReader::new(alloc, origin, class) else {
        return Err(FormError::OutOfMemory);
    };
    rewrite(alloc, text, &mut reader, &mut Presenter::new(alloc, kind))
}

/// Returns the text with each row in the form. The reader is at the start of a file.
fn rewrite<F: TextForm>(
    alloc: Global,
    text: &[u8],
    reader: &mut LongerReader,
    form: &mut F,
) -> Result<Vec<u8>, FormError>
    ensures ok { IfOk result (λ new. (entries : List spec.Entry) × (after : spec.Context)
        × GoesTo (F.goes (F.layout form.old)) (context_in reader.old) text.now new.items entries after) }
    ensures err { IfErr result (λ error. (line : ℕ) → error ≡ Line line → FailsInLine (context_in reader.old) text.now line) }
{
    let mut out = Vec::new(alloc);
    let mut spans = Vec::new(alloc);
    let end = append_rows(form, reader, text, 0, &mut spans, &mut out)?;
    if !end.is_end {
        return Err(error_at(0, text, end.place));
    }
    match out.extend_from_slice(&text[end.place..]) {
        Ok(()) => Ok(out),
        Err(_) => Err(FormError::OutOfMemory),
    }
}
