//! Entries of zone files.
use dns_entry_scanner::{InlineName, ScannedName, ScannedString};
use dns_header::Record;
use dns_name::ToName;
use dns_rdata::ZoneRecordData;

/// The data of a scanned record.
pub type ScannedRecordData = ZoneRecordData<Vec<u8>, ScannedName>;

/// A scanned record.
pub type ScannedRecord = Record<ScannedName, ScannedRecordData>;

/// The entry of a row of a zone file, unless it is a directive, which only changes the rows after it (RFC 1035 5.1).
#[derive(Debug, Drop)]
pub enum Entry<N: ToName = ScannedName> {
    /// A record.
    Record(Record<N, ZoneRecordData<Vec<u8>, N>>),
    /// `$INCLUDE`, which names another file.
    Include {
        /// The path of the file.
        path: ScannedString,
        /// The origin for the file, if the row states one.
        origin: Option<N>,
    },
}

/// The entry of a row, like `Entry`, but with the octets of a record in a vector.
#[derive(Debug, Drop)]
pub enum ComposedEntry {
    /// A record. Its octets are the last ones of the vector.
    Record {
        /// Whether its data is unknown data: the text has it as `\#`, or the type has no fields (RFC 3597).
        unknown: bool,
    },
    /// `$INCLUDE`, which names another file. It is boxed so that the enum stays small.
    Include(Box<IncludedFile>),
}

/// The file that `$INCLUDE` names.
#[derive(Debug, Drop)]
pub struct IncludedFile {
    /// The path of the file.
    pub path: ScannedString,
    /// The origin for the file, if the row states one.
    pub origin: Option<InlineName>,
}
