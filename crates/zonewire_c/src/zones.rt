//! Zones for C: read from text, counted, printed, and written as canonical octets.
ghost use Rattle.std.specs.Prelude.{MatchResult};
ghost use Rattle.zonewire_c.specs.Answer.{AnswersBy, CountsBy};
ghost use Rattle.zonewire_c.specs.Calls.{IsCanonicalOutput, IsPrintFault, IsPrintOutput};
ghost use Rattle.zonewire_c.specs.Given.{IsTextFault, IsTextOf};

use crate::answer::{Answer, failed, hand_out};
use crate::fault::Fault;
use crate::given::{count_records, layout_at, read_zone};
use std::alloc::Global;

/// Counts the records of the zone of this text. `count` of the answer is their number.
///
/// The origin is the text of a name, or has no octets if there is none; the class is a number. Fails with the first rule
/// that the text breaks.
#[unsafe(no_mangle)]
pub extern "C" fn zonewire_count(alloc: Global, text: &[u8], origin: &[u8], class: u16) -> Answer
    ensures { CountsBy (IsTextOf text.now origin.now class) (IsTextFault text.now origin.now class) result }
{
    match count_records(alloc, text, origin, class) {
        Ok(count) => Answer {
            fault: 0,
            number: 0,
            count,
        },
        Err(fault) => failed(fault),
    }
}

/// Prints the zone of this text to the buffer, in the layout of this number: 0 is `Simple`, 1 `Tabbed`, 2 `Multiline`.
///
/// Fails with `BadLayout` if no layout has the number, otherwise as `zonewire_count` does.
#[unsafe(no_mangle)]
pub extern "C" fn zonewire_print(
    alloc: Global,
    text: &[u8],
    origin: &[u8],
    class: u16,
    layout: u8,
    out: &mut [u8],
) -> Answer
    ensures { AnswersBy (IsPrintOutput text.now origin.now class layout) (IsPrintFault text.now origin.now class layout) out.old out.new
        result }
{
    hand_out(print(alloc, text, origin, class, layout), out)
}

/// Returns the printed text of the zone of this text. Fails as `zonewire_print` does.
fn print(
    alloc: Global,
    text: &[u8],
    origin: &[u8],
    class: u16,
    layout: u8,
) -> Result<Vec<u8>, Fault>
    ensures { MatchResult result (λ printed. IsPrintOutput text.now origin.now class layout printed.items)
        (IsPrintFault text.now origin.now class layout) }
{
    let layout = layout_at(layout)?;
    let zone = read_zone(alloc, text, origin, class)?;
    let printed = zone.print(alloc, layout)?;
    Ok(printed)
}

/// Writes the canonical octets of the zone of this text to the buffer (RFC 4034 6).
///
/// Fails as `zonewire_count` does.
#[unsafe(no_mangle)]
pub extern "C" fn zonewire_canonical(
    alloc: Global,
    text: &[u8],
    origin: &[u8],
    class: u16,
    out: &mut [u8],
) -> Answer
    ensures { AnswersBy (IsCanonicalOutput text.now origin.now class) (IsTextFault text.now origin.now class) out.old out.new result }
{
    hand_out(canonical(alloc, text, origin, class), out)
}

/// Returns the canonical octets of the zone of this text. Fails as `zonewire_canonical` does.
fn canonical(alloc: Global, text: &[u8], origin: &[u8], class: u16) -> Result<Vec<u8>, Fault>
    ensures { MatchResult result (λ octets. IsCanonicalOutput text.now origin.now class octets.items)
        (IsTextFault text.now origin.now class) }
{
    let zone = read_zone(alloc, text, origin, class)?;
    let octets = zone.canonical(alloc)?;
    Ok(octets)
}
