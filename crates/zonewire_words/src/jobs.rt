//! The jobs of the program.

use dns_name::{Class, Name};
use dns_text::DisplayKind;
use zone_core::Spelling;

/// One run of the program.
#[derive(Debug, Drop)]
pub enum Job {
    /// Reads zone text, and writes the messages of the zone's transfer (RFC 5936).
    Send {
        /// The origin of relative names in the text.
        origin: Option<Name<Vec<u8>>>,
        /// The zone's class.
        class: Class,
        /// The ID of the query and its answers.
        id: u16,
        /// The name that the query asks for, or None for the zone's own.
        apex: Option<Name<Vec<u8>>>,
        /// The largest number of octets that a message may have.
        max: u16,
        /// How names are written in the messages.
        spelling: Spelling,
    },
    /// Reads the messages of a zone transfer (RFC 5936), and writes the text of the zone.
    Receive {
        /// The zone's class.
        class: Class,
        /// The ID of the query and its answers.
        id: u16,
        /// The zone's name.
        apex: Name<Vec<u8>>,
        /// How the text is laid out.
        layout: DisplayKind,
    },
    /// Reads zone text, and writes the number of the zone's records.
    Check {
        /// The origin of relative names in the text.
        origin: Option<Name<Vec<u8>>>,
        /// The zone's class.
        class: Class,
    },
    /// Reads zone text, and writes the zone's canonical octets (RFC 4034 6).
    Canon {
        /// The origin of relative names in the text.
        origin: Option<Name<Vec<u8>>>,
        /// The zone's class.
        class: Class,
    },
}
