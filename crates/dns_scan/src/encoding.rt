//! The encodings of RFC 4648: their texts, and what decodes them.
ghost use Rattle.dns_scan.specs.declared.encoding.base.Base.{Base};

mod base;
pub mod base16;
pub mod base32;
pub mod base64;
mod bits;
mod decode_error;
mod decoder;
mod encoded;
mod entry;
mod fours;
mod group;
mod hex_digits;
mod symbol_converter;
mod values;

pub use base::Base;
pub use decode_error::DecodeError;
pub use encoded::DisplayEncoded;
pub use symbol_converter::DecodedOctet;

/// A type that stands for one of the encodings.
pub trait Encoding {
    ghost BASE: { Base };

    /// The encoding.
    const BASE: Base;
}
