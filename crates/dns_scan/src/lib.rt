//! Character strings, encodings and scanners of presentation text (RFC 1035 3.3 and 5.1, RFC 4648).
//!
//! `dns_text` re-exports this crate.
#![tactic(auto)]

mod char_str;
mod digits;
mod encoding;
pub mod laws;
mod scan;
mod symbols;

pub use char_str::{
    CharStr, CharStrBuilder, CharStrError, CharStrIter, DisplayQuoted, DisplayUnquoted,
    FromStrError, PresentationError,
};
pub use digits::number_of;
pub use encoding::{DecodeError, DecodedOctet, DisplayEncoded, base16, base32, base64};
pub use scan::{
    IterScanner, Scan, Scanner, ScannerError, StrError, scan_unknown_octets, scan_without_marker,
};
pub use symbols::{ConvertSymbols, EntrySymbol};
