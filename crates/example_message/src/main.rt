//! A message built with compression, and read with cursors over its sections.
//!
//! To run it: `cd crates/example_message && rt try`.
#![tactic(auto)]

use anyhow::Result;
use dns_message::{Message, MessageBuilder, RecordSection, TreeCompressor};
use dns_name::{Name, ParsedName, Rtype, Ttl};
use dns_rdata::{A, Mx, ZoneRecordData};
use dns_text::base16;
use std::alloc::Global;

/// Returns the octets of an answer: the mail exchange of a name, and the address of that.
fn build(alloc: Global) -> Result<Vec<u8>> {
    let apex = Name::vec_from_str(alloc, "example.com.")?;
    let mail = Name::vec_from_str(alloc, "mail.example.com.")?;
    let target = TreeCompressor::new(alloc, Vec::new(alloc));
    let mut message = MessageBuilder::from_target(target)?;
    let mut header = message.header();
    header.set_qr(true);
    message.set_header(header);

    let mut question = message.question();
    question.push((apex.for_ref(), Rtype::MX))?;
    let mut answer = question.answer();
    answer.push((apex.for_ref(), Ttl::HOUR, Mx::new(10, mail.for_ref())))?;
    let mut additional = answer.additional();
    additional.push((mail.for_ref(), Ttl::HOUR, A::from_octets(192, 0, 2, 1)))?;
    Ok(additional.finish().into_target())
}

/// Shows the question, and each record of the answer with its data.
fn show(rt: &impl Print, message: &Message<&[u8]>) -> Result<()> {
    if let Some(question) = message.first_question() {
        println!(rt; "question: {question}")?;
    }
    let mut answer = message.answer()?;
    while let Some(record) = answer.next() {
        let record = record?.into_any_record::<ZoneRecordData<&[u8], ParsedName<&[u8]>>>()?;
        println!(rt; "record:   {record}")?;
    }
    Ok(())
}

/// Shows the addresses of a section.
fn show_addresses(rt: &impl Print, section: RecordSection<'_>) -> Result<()> {
    for record in section.limit_to_in::<A>() {
        let record = record?;
        println!(rt; "address:  {} has {}", record.owner(), record.data())?;
    }
    Ok(())
}

fn main(rt: HostRuntime) -> Result<()> {
    let octets = build(rt.alloc())?;
    println!(rt; "{}", base16::display(octets.as_slice()))?;
    let message = Message::from_slice(octets.as_slice())?;
    show(&rt, &message)?;
    show_addresses(&rt, message.additional()?)
}
