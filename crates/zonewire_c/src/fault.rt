//! Why a call of C failed, and the numbers by which C knows it.
ghost use Rattle.std.specs.Prelude.{◌≡◌};
ghost use Rattle.zonewire_c.specs.Fault.{code_of, number_of, query_code, receive_code, receive_number, send_code, send_number, zone_code, zone_number};
ghost use Rattle.zonewire_c.specs.declared.fault.Fault.TheVariants as fault;

use std::alloc::AllocError;
use zonewire::{QueryError, ReceiveError, SendError, ZoneError};

/// Why a call failed.
#[derive(Clone, Copy)]
pub enum Fault {
    /// Out of memory. The errors below have a variant for it too, with the same number.
    OutOfMemory,
    /// The text of a name is not one.
    BadName,
    /// No layout has the number.
    BadLayout,
    /// No spelling has the number.
    BadSpelling,
    /// The text is not a zone's.
    Zone(ZoneError),
    /// The zone is not sent.
    Send(SendError),
    /// The stream is not the transfer of a zone.
    Receive(ReceiveError),
}

impl From<AllocError> for Fault {
    ghost from_gives = { λ _ answer. answer ≡ fault.OutOfMemory };

    fn from(_: AllocError) -> Fault {
        Fault::OutOfMemory
    }
}

impl Fault {
    /// Returns the number of the fault. The hundreds are a table of `docs/ERRORS.md`, and the rest is its row.
    pub(crate) fn code(self) -> u32
        ensures { result ≡ code_of self }
    {
        match self {
            Fault::OutOfMemory => 1,
            Fault::BadName => 2,
            Fault::BadLayout => 3,
            Fault::BadSpelling => 4,
            Fault::Zone(error) => zone_code(error),
            Fault::Send(error) => send_code(error),
            Fault::Receive(error) => receive_code(error),
        }
    }

    /// Returns the number that the fault names: of an entry, of a record, or a response code. Returns 0 if it names none.
    pub(crate) fn number(self) -> usize
        ensures { result ≡ number_of self }
    {
        match self {
            Fault::Zone(error) => zone_number(error),
            Fault::Send(SendError::Record(number)) => number,
            Fault::Receive(error) => receive_number(error),
            _ => 0,
        }
    }
}

fn zone_code(error: ZoneError) -> u32
    ensures { result ≡ zone_code error }
{
    match error {
        ZoneError::OutOfMemory => 1,
        ZoneError::ClassAny => 101,
        ZoneError::Text(_) => 102,
        ZoneError::Include(_) => 103,
        ZoneError::Untyped(_) => 104,
        ZoneError::FirstNotSoa(_) => 105,
        ZoneError::SecondSoa(_) => 106,
        ZoneError::OutOfZone(_) => 107,
        ZoneError::Unspellable(_) => 108,
        ZoneError::NoSoa => 109,
    }
}

fn query_code(error: QueryError) -> u32
    ensures { result ≡ query_code error }
{
    match error {
        QueryError::Short => 201,
        QueryError::Response => 202,
        QueryError::Opcode => 203,
        QueryError::Counts => 204,
        QueryError::Malformed => 205,
        QueryError::NotAxfr => 206,
        QueryError::ClassAny => 207,
        QueryError::Trailing => 208,
    }
}

fn send_code(error: SendError) -> u32
    ensures { result ≡ send_code error }
{
    match error {
        SendError::OutOfMemory => 1,
        SendError::Query(why) => query_code(why),
        SendError::WrongZone => 302,
        SendError::Record(_) => 303,
    }
}

fn receive_code(error: ReceiveError) -> u32
    ensures { result ≡ receive_code error }
{
    match error {
        ReceiveError::OutOfMemory => 1,
        ReceiveError::Query(why) => query_code(why),
        ReceiveError::Short => 402,
        ReceiveError::Id => 403,
        ReceiveError::NotResponse => 404,
        ReceiveError::Opcode => 405,
        ReceiveError::Rcode(_) => 406,
        ReceiveError::Counts => 407,
        ReceiveError::Question => 408,
        ReceiveError::Record(_) => 409,
        ReceiveError::FirstNotSoa => 410,
        ReceiveError::Class(_) => 411,
        ReceiveError::OutOfZone(_) => 412,
        ReceiveError::SoaDiffers(_) => 413,
        ReceiveError::AfterLast(_) => 414,
        ReceiveError::Unspellable(_) => 415,
        ReceiveError::Trailing => 416,
        ReceiveError::Unfinished => 417,
    }
}

fn zone_number(error: ZoneError) -> usize
    ensures { result ≡ zone_number error }
{
    match error {
        ZoneError::Text(number)
        | ZoneError::Include(number)
        | ZoneError::Untyped(number)
        | ZoneError::FirstNotSoa(number)
        | ZoneError::SecondSoa(number)
        | ZoneError::OutOfZone(number)
        | ZoneError::Unspellable(number) => number,
        _ => 0,
    }
}

fn receive_number(error: ReceiveError) -> usize
    ensures { result ≡ receive_number error }
{
    match error {
        ReceiveError::Rcode(rcode) => usize::from(rcode),
        ReceiveError::Record(number)
        | ReceiveError::Class(number)
        | ReceiveError::OutOfZone(number)
        | ReceiveError::SoaDiffers(number)
        | ReceiveError::AfterLast(number)
        | ReceiveError::Unspellable(number) => number,
        _ => 0,
    }
}
