//! Why a run of the program failed.
ghost use Rattle.std.specs.Prelude.{◌≡◌};
ghost use Rattle.zonewire.specs.Fault.{of_read, of_receive, of_send, of_zone};
ghost use Rattle.zonewire.specs.declared.fault.Fault.TheVariants as fault;

use crate::sink::SinkError;
use crate::source::ReadAllError;
use std::alloc::AllocError;
use thiserror::Error;
use zone::ZoneError;
use zone_receive::ReceiveError;
use zone_send::SendError;

/// Why a run failed. One variant, `OutOfMemory`, covers every allocation.
#[derive(Clone, Copy, Debug, PartialEq, Eq, Error)]
pub enum Fault {
    /// A read of the input failed.
    #[error("read failed")]
    Read,
    /// A write of the output failed.
    #[error("write failed")]
    Write,
    /// The input is not the text of a zone.
    #[error("{0}")]
    Zone(ZoneError),
    /// The zone is not sent.
    #[error("{0}")]
    Send(SendError),
    /// The input is not the transfer of a zone.
    #[error("{0}")]
    Receive(ReceiveError),
    /// Out of memory.
    #[error("out of memory")]
    OutOfMemory,
}

impl From<ReadAllError> for Fault {
    ghost from_gives = { λ error fault. fault ≡ of_read error };

    fn from(error: ReadAllError) -> Fault {
        match error {
            ReadAllError::Read => Fault::Read,
            ReadAllError::OutOfMemory => Fault::OutOfMemory,
        }
    }
}

impl From<SinkError> for Fault {
    ghost from_gives = { λ _ answer. answer ≡ fault.Write };

    fn from(_: SinkError) -> Fault {
        Fault::Write
    }
}

impl From<AllocError> for Fault {
    ghost from_gives = { λ _ answer. answer ≡ fault.OutOfMemory };

    fn from(_: AllocError) -> Fault {
        Fault::OutOfMemory
    }
}

impl From<ZoneError> for Fault {
    ghost from_gives = { λ error fault. fault ≡ of_zone error };

    fn from(error: ZoneError) -> Fault {
        match error {
            ZoneError::OutOfMemory => Fault::OutOfMemory,
            error => Fault::Zone(error),
        }
    }
}

impl From<SendError> for Fault {
    ghost from_gives = { λ error fault. fault ≡ of_send error };

    fn from(error: SendError) -> Fault {
        match error {
            SendError::OutOfMemory => Fault::OutOfMemory,
            error => Fault::Send(error),
        }
    }
}

impl From<ReceiveError> for Fault {
    ghost from_gives = { λ error fault. fault ≡ of_receive error };

    fn from(error: ReceiveError) -> Fault {
        match error {
            ReceiveError::OutOfMemory => Fault::OutOfMemory,
            error => Fault::Receive(error),
        }
    }
}
