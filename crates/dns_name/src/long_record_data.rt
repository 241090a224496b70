//! The limit on the length of record data.
ghost use Rattle.std.specs.Prelude.{◌≡◌, ◌≤◌, ◌+◌, ◌↔◌, ◌∷◌, [], sum, IsOk, ◌≢◌};
ghost use Rattle.dns_octets.specs.declared.error.ParseError.TheVariants.{ShortInput};

use dns_octets::ParseError;
use thiserror::Error;

/// The data of a record is longer than the 65,535 octets that its length can count (RFC 1035 3.2.1).
#[derive(Clone, Copy, Debug, PartialEq, Eq, Error)]
#[error("record data too long")]
pub struct LongRecordData;

const TEXT: &str = "record data too long";

impl LongRecordData {
    /// Returns the text of the error.
    pub fn as_str(self) -> &'static str
        ensures { result.now
            ≡ 114 ∷ 101 ∷ 99 ∷ 111 ∷ 114 ∷ 100 ∷ 32 ∷ 100 ∷ 97 ∷ 116 ∷ 97 ∷ 32 ∷ 116 ∷ 111 ∷ 111 ∷ 32 ∷ 108
            ∷ 111 ∷ 110 ∷ 103 ∷ [] }
    {
        TEXT
    }

    /// Fails if the length is more than 65,535.
    pub fn check_len(len: usize) -> Result<(), LongRecordData>
        ensures { IsOk result ↔ (len ≤ 65535) }
    {
        if len > 65535 {
            Err(LongRecordData)
        } else {
            Ok(())
        }
    }

    /// Fails if the length and the further octets are more than 65,535 together.
    pub fn check_append_len(len: usize, extra_len: usize) -> Result<(), LongRecordData>
        ensures { IsOk result ↔ (len + extra_len ≤ 65535) }
    {
        LongRecordData::check_len(len)?;
        LongRecordData::check_len(extra_len)?;
        LongRecordData::check_len(len + extra_len)
    }

    /// Fails if the lengths are more than 65,535 together.
    pub fn check_multi_len<const N: usize>(lens: &[usize; N]) -> Result<(), LongRecordData>
        ensures { IsOk result ↔ (sum lens.now ≤ 65535) }
    {
        let mut total = 0;
        for len in lens.iter() {
            LongRecordData::check_append_len(total, *len)?;
            total += *len;
        }
        Ok(())
    }
}

impl From<LongRecordData> for ParseError {
    ghost from_gives = { λ _ error. error ≢ ShortInput };

    fn from(error: LongRecordData) -> ParseError {
        ParseError::form_error(error.as_str())
    }
}
