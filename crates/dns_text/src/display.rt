//! Documents as texts.
ghost use Rattle.std.specs.Prelude.{◌≡◌, Some};
ghost use Rattle.dns_text.specs.Document.{document_text};
ghost use Rattle.dns_text.specs.Layout.{layout_of};
ghost use Rattle.dns_text.specs.Shown.{shown_kind, shown_value};

use crate::layout::DisplayKind;
use crate::writer::Writer;
use crate::zonefile_fmt::ZonefileFmt;
use std::fmt;

/// What shows the document of a value under a layout.
#[derive(Debug, Drop)]
pub struct ZoneFileDisplay<'a, T> {
    value: &'a T,
    kind: DisplayKind,
}

impl<'a, T> ZoneFileDisplay<'a, T> {
    /// Makes what shows the value under the layout.
    pub(crate) fn new(value: &'a T, kind: DisplayKind) -> Self
        ensures value { shown_value result ≡ value.now }
        ensures kind { shown_kind result ≡ kind }
    {
        ZoneFileDisplay { value, kind }
    }
}

impl<T: ZonefileFmt> fmt::Display for ZoneFileDisplay<'_, T> {
    ghost output = { λ shown. Some (document_text (layout_of (shown_kind shown)) (T.document (shown_value shown))) };

    fn fmt<W: fmt::Write>(&self, f: &mut fmt::Formatter<W>) -> fmt::Result {
        let mut writer = Writer::new(f, self.kind);
        let result = self.value.fmt(&mut writer);
        // This keeps what was written to the formatter in sight of the proof.
        writer.into_target();
        result
    }
}
