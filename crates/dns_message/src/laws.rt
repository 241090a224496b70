//! Laws of messages: what the code parses and writes agrees with the definitions that a zone transfer is judged by.
//! Each function does nothing; what it ensures is the law.
ghost use Rattle.std.specs.Prelude.{◌≡◌, ◌≢◌, ◌<◌, ◌+◌, ◌^◌, ◌++◌, ℕ, Bool, List, length, slice_index};
ghost use Rattle.dns_label.specs.Octets.{AreOctets};
ghost use Rattle.dns_name.specs.Page.{Parts};
ghost use Rattle.dns_name.specs.SpelledParts.{SpellsParts};
ghost use Rattle.dns_rdata.specs.Fields.{IsData};
ghost use Rattle.dns_rdata.specs.Data as data_specs;
ghost use Rattle.dns_rdata.specs.Data.{Data};
ghost use Rattle.dns_rdata.specs.DataOctets.{IsSpellable};
ghost use Rattle.dns_header.specs.Header.{answer_header};
ghost use Rattle.dns_header.specs.HeaderFields.{fields_of};
ghost use Rattle.dns_header.specs.HeaderCounts.{counts_in};
ghost use Rattle.dns_header.specs.Question.{Question, ReadsQuestion, question_parts};
ghost use Rattle.dns_header.specs.Record.{RecordOf};
ghost use Rattle.dns_header.specs.ParsedRecord.{Parsed, HoldsRecord, IsRecordOf};
ghost use Rattle.dns_message.specs.Answer.{answer_fields, answer_counts};
ghost use Rattle.dns_message.specs.Held.{TakesRecord, record_of, written_parts_of};
ghost use Rattle.dns_message.specs.Record.{Record, IsRecord, IsWritten, ReadsRecord, record_octets};

pub use dns_builder::laws::{
    built_messages_are_read_back, other_headers_are_readable, other_sections_are_readable,
    pushed_items_are_readable, taken_records_are_readable,
};
pub use dns_builder::reading::laws::{
    question_and_record_cursors_end, question_and_record_errors_come_once,
};
pub use dns_header::laws::{
    counts_are_four_numbers, header_is_its_fields, options_are_cut_from_their_octets,
    question_orders_by_name_type_class, question_skip_stops_where_parse_stops,
    questions_in_full_are_read, record_equality_order_and_hash_agree,
    record_header_orders_by_fields, record_orders_by_owner_class_data,
    record_skip_stops_where_parse_stops,
};

/// A message has a record at a place exactly if the code parses its header and its data there: a row of the fields of
/// its type, or unknown data (RFC 1035 3.2.1, RFC 3597). An item of a cursor, with its data parsed, is such a record.
/// If the message has a record at a place, an item there is that record.
pub fn records_have_one_meaning()
    ensures there { (message : List ℕ) (place next : ℕ) (r : Record) → ReadsRecord message place r next
        → (rr : RecordOf (List (List ℕ)) Data) × TakesRecord message place rr next × (record_of rr ≡ r) }
    ensures back { (message : List ℕ) (place next : ℕ) (rr : RecordOf (List (List ℕ)) Data)
        → AreOctets message → TakesRecord message place rr next
        → ReadsRecord message place (record_of rr) next }
    ensures item { (message : List ℕ) (place next : ℕ) (parsed : Parsed) (rr : RecordOf (List (List ℕ)) Data)
        → HoldsRecord message place parsed next → IsRecordOf data_specs.ReadsData parsed rr → TakesRecord message place rr next }
    ensures found { (message : List ℕ) (place next end : ℕ) (r : Record) (parsed : Parsed) → ReadsRecord message place r next
        → HoldsRecord message place parsed end → (end ≡ next)
        × (rr : RecordOf (List (List ℕ)) Data) × IsRecordOf data_specs.ReadsData parsed rr × (record_of rr ≡ r) }
{}

/// A message has a question at a place exactly if it spells the question's parts there, and the type and the class each
/// fit two octets (RFC 1035 4.1.2).
pub fn questions_have_one_meaning()
    ensures there { (message : List ℕ) (place next : ℕ) (q : Question) → AreOctets message
        → ReadsQuestion message place q next
        → SpellsParts message place (question_parts q) next × (q.qtype < 2 ^ 16) × (q.qclass < 2 ^ 16) }
    ensures back { (message : List ℕ) (place next : ℕ) (q : Question) → SpellsParts message place (question_parts q) next
        → q.qtype < 2 ^ 16 → q.qclass < 2 ^ 16 → ReadsQuestion message place q next }
{}

/// The header of an answer is exactly the twelve octets with this ID, QR, AA and this RD, no other bit, and the counts
/// 1, `answers`, 0 and 0 (RFC 1035 4.1.1).
pub fn answer_header_is_its_fields()
    ensures there { (id : ℕ) (recursion : Bool) (answers : ℕ) → id < 2 ^ 16 → answers < 2 ^ 16
        → (length (answer_header id recursion answers) ≡ 12)
        × (fields_of (answer_header id recursion answers) ≡ answer_fields id recursion)
        × (counts_in (answer_header id recursion answers) ≡ answer_counts answers) }
    ensures back { (header : List ℕ) (id : ℕ) (recursion : Bool) (answers : ℕ) → AreOctets header
        → length header ≡ 12 → fields_of header ≡ answer_fields id recursion → counts_in header ≡ answer_counts answers
        → header ≡ answer_header id recursion answers }
{}

/// A written record is read as that record, with pointers and with names in full. `parts`: the code writes a record
/// that it has parsed in this way.
pub fn written_records_are_read()
    ensures parts { (message : List ℕ) (place next : ℕ) (rr : RecordOf (List (List ℕ)) Data) → TakesRecord message place rr next
        → IsWritten (record_of rr) (written_parts_of rr) }
    ensures spelled { (message : List ℕ) (place next : ℕ) (r : Record) (parts : Parts) → IsRecord r → IsWritten r parts
        → SpellsParts message place parts next → ReadsRecord message place r next }
    ensures in_full { (message front rest : List ℕ) (r : Record) → IsRecord r → IsData r.rtype r.rdata
        → message ≡ front ++ (record_octets r ++ rest)
        → ReadsRecord message (length front) r (length front + length (record_octets r)) }
{}

/// Text can spell data of a type exactly if it is not that of CAA, or its second octet, which is the length of the tag,
/// is not 0 (RFC 8659 4.1).
pub fn text_spells_data_whose_tag_is_not_empty()
    ensures there { (rtype : ℕ) (data' : List ℕ) → IsData rtype data' → IsSpellable rtype data' → rtype ≡ 257
        → slice_index data' 1 ≢ 0 }
    ensures back { (rtype : ℕ) (data' : List ℕ) → (rtype ≡ 257 → slice_index data' 1 ≢ 0) → IsSpellable rtype data' }
{}
