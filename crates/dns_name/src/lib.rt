//! Domain names: flat, in messages, and in text (RFC 1035 3.1, 4.1.4, 5.1).
//!
//! The public crate of the lowest layer. Its own are names in messages, composers and the traits of record data. It
//! re-exports what the crates below are for: `dns_octets` (octets and how they are read), `dns_values` (the small
//! values of records), `dns_label` (labels and symbols), `dns_wire` (names as octets and as text) and `dns_flat` (flat
//! names).
//!
//! ```
//! let name = Name::vec_from_str(alloc, "www.example.com.")?;
//! let apex = Name::vec_from_str(alloc, "EXAMPLE.com.")?;
//! println!(rt; "{name} is under {apex}: {}", name.ends_with(&apex))?;
//! ```
//!
//! The program of a page `example_message` uses names in a message that is built and read.
#![tactic(auto)]

mod composer;
mod flatten;
pub mod laws;
mod long_record_data;
mod parsed;
mod parsed_iter;
mod record_data;
mod unknown;

pub use composer::Composer;
pub use dns_flat::{
    Chain, DisplayWithDot, LongChainError, Name, NameBuilder, NameError, NameIter, PushNameError,
    RelativeFromStrError, RelativeName, RelativeNameError, SpelledName, StripSuffixError,
    SuffixIter, ToName, ToRelativeName, first_name,
};
pub use dns_label::{
    BadSymbol, Label, LabelFromStrError, LabelMut, LabelTypeError, LongLabelError, OctetKind,
    OwnedLabel, OwnedLabelMut, PlainLabelOctets, SliceLabelsIter, SplitLabelError, Symbol,
    SymbolCharsError, Symbols, run_end,
};
pub use dns_octets::{
    AppendError, Compose, EmptyBuilder, FormError, FreezeBuilder, FromBuilder, Octets,
    OctetsBuilder, OctetsFrom, Parse, ParseError, Parser, Remembers, ShortInput, Truncate,
    WriteOctets,
};
pub use dns_values::{
    CanonicalOrd, Class, ClassFromStrError, IllegalSignatureTime, Opcode, OptRcode, OptionCode,
    Rcode, Rtype, RtypeFromStrError, Serial, Ttl,
};
pub use dns_wire::{FromStrError, LabelIter, PresentationError, PushError, ToLabelIter};
pub use flatten::FlattenInto;
pub use long_record_data::LongRecordData;
pub use parsed::{ParsedName, ParsedSuffixIter};
pub use parsed_iter::ParsedNameIter;
pub use record_data::{ComposeRecordData, ParseAnyRecordData, ParseRecordData, RecordData};
pub use unknown::UnknownRecordData;
