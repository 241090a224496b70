//! What a call returns to C.
ghost use Rattle.std.specs.Prelude.{◌≡◌, length, MatchResult};
ghost use Rattle.zonewire_c.specs.Answer.{Fails, HandsOut, failure, filled};

use crate::fault::Fault;

/// What a call returns.
#[derive(Clone, Copy)]
#[repr(C)]
pub struct Answer {
    /// The number of the fault, or 0 if there is none.
    pub fault: u32,
    /// The number of the entry or record that is at fault, or the response code; otherwise 0.
    pub number: usize,
    /// The number of octets or records that the call returns, or 0 after a fault.
    pub count: usize,
}

/// Returns the answer of a call that made these octets, which it copies to the buffer if they fit, or that failed.
pub(crate) fn hand_out(made: Result<Vec<u8>, Fault>, out: &mut [u8]) -> Answer
    ensures { MatchResult made (λ octets. HandsOut octets.items out.old out.new result) (λ fault. Fails fault out.old out.new result) }
{
    match made {
        Ok(octets) => Answer {
            fault: 0,
            number: 0,
            count: fill(out, octets.as_slice()),
        },
        Err(fault) => failed(fault),
    }
}

/// Copies the octets to the beginning of the buffer if they fit there. Returns how many they are.
pub(crate) fn fill(out: &mut [u8], octets: &[u8]) -> usize
    ensures count { result ≡ length octets.now }
    ensures octets { out.new ≡ filled octets.now out.old }
{
    let count = octets.len();
    if count <= out.len() {
        out[..count].copy_from_slice(octets);
    }
    count
}

/// Returns the answer of a call that failed.
pub(crate) fn failed(fault: Fault) -> Answer
    ensures { result ≡ failure fault }
{
    Answer {
        fault: fault.code(),
        number: fault.number(),
        count: 0,
    }
}
