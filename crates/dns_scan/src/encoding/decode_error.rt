//! Why a text is none of an encoding.
use thiserror::Error;

/// Why a text was not decoded.
#[derive(Clone, Copy, Debug, PartialEq, Eq, Error)]
pub enum DecodeError {
    /// This character is not in the alphabet, or is a pad where none is allowed.
    #[error("illegal character '{0}'")]
    IllegalChar(char),
    /// There is a character after the padding that is not allowed there.
    #[error("trailing input")]
    TrailingInput,
    /// The text ends before a group of characters, or its padding, does.
    #[error("incomplete input")]
    ShortInput,
    /// There is no room or no memory for the octets.
    #[error("short buffer")]
    ShortBuf,
}
