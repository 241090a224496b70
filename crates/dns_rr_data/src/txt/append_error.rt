//! Why appending to TXT data failed.
ghost use Rattle.std.specs.Prelude.{◌≡◌};
ghost use Rattle.dns_rr_data.specs.declared.txt.append_error.TxtAppendError.TheVariants as txt_append_error;

use dns_name::{AppendError, LongRecordData};
use thiserror::Error;

/// Why appending to TXT data failed.
#[derive(Clone, Copy, Debug, PartialEq, Eq, Error)]
pub enum TxtAppendError {
    /// The data would have more than 65,535 octets.
    #[error("record data too long")]
    LongRecordData,
    /// Out of memory or room.
    #[error("short buffer")]
    ShortBuf,
}

impl From<LongRecordData> for TxtAppendError {
    ghost from_gives = { λ _ error. error ≡ txt_append_error.LongRecordData };

    fn from(_: LongRecordData) -> TxtAppendError {
        TxtAppendError::LongRecordData
    }
}

impl From<AppendError> for TxtAppendError {
    ghost from_gives = { λ _ error. error ≡ txt_append_error.ShortBuf };

    fn from(_: AppendError) -> TxtAppendError {
        TxtAppendError::ShortBuf
    }
}
