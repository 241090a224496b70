//! Values that a zone file shows.
ghost use Rattle.std.specs.Prelude.{◌≡◌, List, OnOk};
ghost use Rattle.dns_text.specs.Document.{Piece};
ghost use Rattle.dns_text.specs.Shown.{shown_kind, shown_value};
ghost use Rattle.dns_text.specs.Writing.{Adds};

use crate::display::ZoneFileDisplay;
use crate::formatter::Formatter;
use crate::layout::DisplayKind;
use std::fmt;

/// A value with a document.
pub trait ZonefileFmt {
    ghost document: { Self → List Piece };

    /// Writes the document of the value. Passes on the errors of the formatter.
    fn fmt<F: Formatter>(&self, formatter: &mut F) -> fmt::Result
        ensures { OnOk result (Adds F.writes formatter.old (document self.now) formatter.new) };

    /// Returns what shows the value under a layout.
    final fn display_zonefile(&self, kind: DisplayKind) -> ZoneFileDisplay<'_, Self>
    where
        Self: Sized,
        ensures value { shown_value result ≡ self.now }
        ensures kind { shown_kind result ≡ kind }
    {
        ZoneFileDisplay::new(self, kind)
    }
}

/// Lets formatters write the values that have documents.
pub trait WriteShow: Formatter {
    /// Writes the document of the value.
    fn write_show<T: ZonefileFmt>(&mut self, value: &T) -> fmt::Result
        ensures { OnOk result (Adds Self.writes self.old (T.document value.now) self.new) };
}

impl<F: Formatter> WriteShow for F {
    fn write_show<T: ZonefileFmt>(&mut self, value: &T) -> fmt::Result {
        value.fmt(self)
    }
}
