//! The tasks of the program.

use crate::color_choice::ColorChoice;
use crate::reading::Reading;
use dns_name::{Class, Name, Rtype};
use dns_text::DisplayKind;

/// One run of the program.
#[derive(Debug, Drop)]
pub enum Task<'a> {
    /// Writes why the text of a file is no zone's.
    Explain {
        /// The zone's file.
        file: &'a str,
        /// How the zone is read.
        reading: Reading,
        /// Whether each fault is written, not only the first.
        all: bool,
        /// Whether it has colours.
        color: ColorChoice,
    },
    /// Writes what changed between the zones of two files.
    Diff {
        /// The file of the old zone.
        old: &'a str,
        /// The file of the new zone.
        new: &'a str,
        /// How the zones are read.
        reading: Reading,
        /// The types of records that are left out.
        without: Vec<Rtype>,
        /// Whether TTLs are ignored.
        ignore_ttl: bool,
        /// Whether the SOA's serial is ignored.
        ignore_serial: bool,
        /// Whether data of further types is in presentation form.
        present: bool,
        /// Whether the lines have colours.
        color: ColorChoice,
    },
    /// Writes the zone of a file in canonical order.
    Sort {
        /// The zone's file.
        file: &'a str,
        /// How the zone is read.
        reading: Reading,
        /// Whether data of further types is in presentation form.
        present: bool,
        /// How the text is laid out.
        layout: DisplayKind,
    },
    /// Writes the numbers of the zone of a file.
    Stats {
        /// The zone's file.
        file: &'a str,
        /// How the zone is read.
        reading: Reading,
        /// Whether types are named by all mnemonics.
        present: bool,
    },
    /// Writes the text of a file with data of further types in general form.
    General {
        /// The zone's file.
        file: &'a str,
        /// How the zone is read.
        reading: Reading,
    },
    /// Writes the text of a file with data of further types in presentation form.
    Present {
        /// The zone's file.
        file: &'a str,
        /// How the zone is read.
        reading: Reading,
        /// How the data is laid out.
        layout: DisplayKind,
    },
    /// Writes the query for a zone's transfer, after its length.
    Query {
        /// The zone's name.
        apex: Name<Vec<u8>>,
        /// The zone's class.
        class: Class,
        /// The ID of the query.
        id: u16,
    },
}
