//! Presentation text: tokens and rows, character strings, encodings, documents and their layouts (RFC 1035 5.1, RFC
//! 4648).
//!
//! Re-exports `dns_scan` (character strings, encodings, scanners). Values show their documents through a `Formatter`,
//! under one of three layouts; names may be absolute or relative. The crate also has the definitions of how a zone
//! file's text is cut into rows of tokens.
//!
//! ```
//! let mut scanner = IterScanner::new(alloc, "10 mail.example.com.".split(' '))?;
//! let preference = u16::scan(&mut scanner)?;
//! let host = scanner.scan_name()?;
//! ```
//!
//! The program of a page `example_rdata` uses names, text and record data together.
#![tactic(auto)]

mod display;
mod formatter;
pub mod laws;
mod layout;
mod names;
mod uncertain;
mod values;
mod writer;
mod zonefile_fmt;

pub use display::ZoneFileDisplay;
pub use dns_scan::{
    CharStr, CharStrBuilder, CharStrError, CharStrIter, ConvertSymbols, DecodeError, DecodedOctet,
    DisplayEncoded, DisplayQuoted, DisplayUnquoted, EntrySymbol, FromStrError, IterScanner,
    PresentationError, Scan, Scanner, ScannerError, StrError, base16, base32, base64, number_of,
    scan_unknown_octets, scan_without_marker,
};
pub use formatter::Formatter;
pub use layout::DisplayKind;
pub use uncertain::{UncertainChain, UncertainName};
pub use zonefile_fmt::{WriteShow, ZonefileFmt};
