//! Transfers for C: queries, the stream that answers one, and the zone of a stream.
ghost use Rattle.std.specs.Prelude.{MatchResult, IfOk, IfErr};
ghost use Rattle.zonewire.specs.Output.{IsNotReceived, IsReceived};
ghost use Rattle.zonewire_c.specs.Answer.{AnswersBy};
ghost use Rattle.zonewire_c.specs.Calls.{IsQueryOutput, IsReceiveFault, IsReceiveOutput, IsSendFault, IsSendOutput};
ghost use Rattle.zonewire_c.specs.Given.{IsNameFault};

use crate::answer::{Answer, hand_out};
use crate::fault::Fault;
use crate::given::{layout_at, read_name, read_zone, spelling_at};
use dns_name::Class;
use std::alloc::Global;
use zonewire::{ReceiveError, Receiver, Zone, axfr_query, send};

/// Writes the query for the transfer of the zone with this name and class to the buffer: a message with this ID, one
/// question, and all flags clear (RFC 5936 2.1).
///
/// Fails with `BadName` if the text spells no name.
#[unsafe(no_mangle)]
pub extern "C" fn zonewire_query(
    alloc: Global,
    id: u16,
    name: &[u8],
    class: u16,
    out: &mut [u8],
) -> Answer
    ensures { AnswersBy (IsQueryOutput id name.now class) (IsNameFault name.now) out.old out.new result }
{
    hand_out(query(alloc, id, name, class), out)
}

/// Returns the octets of the query. Fails as `zonewire_query` does.
fn query(alloc: Global, id: u16, name: &[u8], class: u16) -> Result<Vec<u8>, Fault>
    ensures { MatchResult result (λ octets. IsQueryOutput id name.now class octets.items) (IsNameFault name.now) }
{
    let name = read_name(alloc, name)?;
    let octets = axfr_query(alloc, id, Class::from_int(class), &name.for_ref())?;
    Ok(octets)
}

/// Writes the stream that answers the query for the zone of this text to the buffer, in messages of at most `max`
/// octets, each after its length in two octets (RFC 5936 2.2). The query is a message without its length.
///
/// Names are written by the spelling of this number: 0 is `Plain`, 1 `Static`, 2 `Tree`, 3 `Hash`. Fails with
/// `BadSpelling` if none has the number, then as `zonewire_count` does, and then with the first rule of `SendError` that
/// is broken.
#[unsafe(no_mangle)]
pub extern "C" fn zonewire_send(
    alloc: Global,
    text: &[u8],
    origin: &[u8],
    class: u16,
    query: &[u8],
    max: u16,
    spelling: u8,
    out: &mut [u8],
) -> Answer
    ensures { AnswersBy (IsSendOutput text.now origin.now class query.now max spelling)
        (IsSendFault text.now origin.now class query.now max spelling) out.old out.new result }
{
    hand_out(
        stream(alloc, text, origin, class, query, max, spelling),
        out,
    )
}

/// Returns the stream that answers the query. Fails as `zonewire_send` does.
fn stream(
    alloc: Global,
    text: &[u8],
    origin: &[u8],
    class: u16,
    query: &[u8],
    max: u16,
    spelling: u8,
) -> Result<Vec<u8>, Fault>
    ensures { MatchResult result (λ octets. IsSendOutput text.now origin.now class query.now max spelling octets.items)
        (IsSendFault text.now origin.now class query.now max spelling) }
{
    let spelling = spelling_at(spelling)?;
    let zone = read_zone(alloc, text, origin, class)?;
    send(alloc, &zone, query, max, spelling).map_err(Fault::Send)
}

/// Prints the zone whose transfer the stream begins with, as the answer to the query, to the buffer. The layout is a
/// number, as for `zonewire_print`. What follows the transfer is ignored.
///
/// Fails with `BadLayout` if no layout has the number, otherwise with the first rule of `ReceiveError` that is broken:
/// with `Unfinished` if the stream is only begun, so that more octets may make it a transfer.
#[unsafe(no_mangle)]
pub extern "C" fn zonewire_receive(
    alloc: Global,
    query: &[u8],
    stream: &[u8],
    layout: u8,
    out: &mut [u8],
) -> Answer
    ensures { AnswersBy (IsReceiveOutput query.now stream.now layout) (IsReceiveFault query.now stream.now layout) out.old out.new result }
{
    hand_out(received_text(alloc, query, stream, layout), out)
}

/// Returns the printed text of the zone that the stream transfers. Fails as `zonewire_receive` does.
fn received_text(alloc: Global, query: &[u8], stream: &[u8], layout: u8) -> Result<Vec<u8>, Fault>
    ensures { MatchResult result (λ printed. IsReceiveOutput query.now stream.now layout printed.items)
        (IsReceiveFault query.now stream.now layout) }
{
    let layout = layout_at(layout)?;
    let zone = receive(alloc, query, stream).map_err(Fault::Receive)?;
    let printed = zone.print(alloc, layout)?;
    Ok(printed)
}

/// Returns the zone whose transfer the stream begins with. Fails with the first rule that it breaks, or if out of
/// memory.
fn receive(alloc: Global, query: &[u8], stream: &[u8]) -> Result<Zone, ReceiveError>
    ensures ok { IfOk result (λ zone. IsReceived query.now stream.now zone.records) }
    ensures err { IfErr result (IsNotReceived query.now stream.now) }
{
    let mut receiver = Receiver::new(alloc, query)?;
    receiver.feed(stream)?;
    receiver.into_zone()
}
