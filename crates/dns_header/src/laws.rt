//! Laws of headers, questions, records and options. Each function does nothing; what it ensures is the law.
ghost use Rattle.std.specs.Prelude.{◌≡◌, ◌<◌, ◌+◌, ◌^◌, ◌++◌, ℕ, List, IsTrue, length};
ghost use Rattle.std.specs.Cmp.{IsTotalOrder};
ghost use Rattle.std.specs.Cmp.Lexicographic.{slice_cmp};
ghost use Rattle.std.specs.Ordering.{is_eq, nat_cmp, ordering_then};
ghost use Rattle.dns_wire.specs.Order.{labels_order};
ghost use Rattle.dns_label.specs.Name.{IsName, low, wire};
ghost use Rattle.dns_header.specs.HeaderFields.{fields_of, header_octets};
ghost use Rattle.std.specs.List.{AllByRecursion};
ghost use Rattle.dns_header.specs.Head.{Head, ReadsWhole, labelled};
ghost use Rattle.dns_header.specs.HeaderCounts.{counts_of, counts_octets};
ghost use Rattle.dns_header.specs.Opt.{EdnsOption, IsOption, options_of, options_octets};
ghost use Rattle.dns_header.specs.Question as spec;
ghost use Rattle.dns_header.specs.Question.{ReadsQuestion, SkipsQuestion, question_octets};
ghost use Rattle.dns_header.specs.QuestionParts.{question_of};
ghost use Rattle.dns_header.specs.RecordParts.{with_ttl};
ghost use Rattle.dns_header.specs.SkipsRecord.{SkipsRecord};

use crate::{Header, HeaderCounts, Question, Record, RecordHeader};
use dns_name::{CanonicalOrd, RecordData, ToName};
use std::hash::Hash;

/// The fields of a header determine its octets, so headers with the same fields are equal.
pub fn header_is_its_fields(header: Header)
    ensures { header ≡ header_octets (fields_of header) }
{
    let _octets = header.octets();
}

/// The four numbers determine the octets of the counts, so counts with the same numbers are equal.
pub fn counts_are_four_numbers(counts: HeaderCounts)
    ensures { counts ≡ counts_octets (counts_of counts) }
{
    let _octets = counts.octets();
}

/// If a question is read at a place, a reader that follows no pointer stops at the same place.
pub fn question_skip_stops_where_parse_stops()
    ensures { (message : List ℕ) (place next : ℕ) (question : spec.Question)
        → ReadsQuestion message place question next → SkipsQuestion message place next }
{}

/// The octets of a question with its name in full are read as that question, wherever they are.
pub fn questions_in_full_are_read()
    ensures { (message front rest : List ℕ) (question : spec.Question) → IsName question.name → question.qtype < 2 ^ 16
        → question.qclass < 2 ^ 16 → message ≡ front ++ (question_octets question ++ rest)
        → ReadsQuestion message (length front) question (length front + length (question_octets question)) }
{}

/// If a record is parsed at a place, a reader that follows no pointer stops at the same place.
pub fn record_skip_stops_where_parse_stops()
    ensures { (message : List ℕ) (place data_place next : ℕ) (head : Head (List (List ℕ)))
        → ReadsWhole message place head data_place next → SkipsRecord message place next }
{}

/// The octets of options are split into these options.
pub fn options_are_cut_from_their_octets()
    ensures { (options : List EdnsOption) → AllByRecursion IsOption options → options_of (options_octets options) ≡ options }
{}

/// Records are equal exactly if their order ties them, and equal records hash alike. Equality, order and hash ignore
/// the TTL (RFC 2136 1.1.1).
pub fn record_equality_order_and_hash_agree<N: ToName, Data: Ord + Hash>(
    record: &Record<N, Data>,
    other: &Record<N, Data>,
)
    ensures order { ⟦<Record<N, Data> as PartialEq>⟧.eq record.now other.now
        ≡ is_eq (⟦<Record<N, Data> as Ord>⟧.cmp record.now other.now) }
    ensures hash { IsTrue (⟦<Record<N, Data> as PartialEq>⟧.eq record.now other.now)
        → ⟦<Record<N, Data> as Hash>⟧.hash_input record.now ≡ ⟦<Record<N, Data> as Hash>⟧.hash_input other.now }
    ensures ttl_is_not_compared { (ttl : ℕ) → ⟦<Record<N, Data> as Ord>⟧.cmp record.now (with_ttl other.now ttl)
        ≡ ⟦<Record<N, Data> as Ord>⟧.cmp record.now other.now }
    ensures ttl_is_not_hashed { (ttl : ℕ) → ⟦<Record<N, Data> as Hash>⟧.hash_input (with_ttl record.now ttl)
        ≡ ⟦<Record<N, Data> as Hash>⟧.hash_input record.now }
{}

/// The order of records is total, by owner, class and data. Their canonical order is by class, owner, type and data
/// (RFC 4034 6).
pub fn record_orders_by_owner_class_data<N: ToName, Data: Ord + RecordData + CanonicalOrd>(
    record: &Record<N, Data>,
    other: &Record<N, Data>,
)
    ensures total { IsTotalOrder ⟦<Record<N, Data> as Ord>⟧.cmp }
    ensures order { ⟦<Record<N, Data> as Ord>⟧.cmp record.now other.now
        ≡ ordering_then (labels_order (N.name record.now.owner) (N.name other.now.owner))
        (ordering_then (nat_cmp record.now.class other.now.class) (Data.cmp record.now.rdata other.now.rdata)) }
    ensures canonical { ⟦<Record<N, Data> as CanonicalOrd>⟧.canonical record.now other.now
        ≡ ordering_then (nat_cmp record.now.class other.now.class)
        (ordering_then (labels_order (N.name record.now.owner) (N.name other.now.owner))
        (ordering_then (nat_cmp (Data.rtype record.now.rdata) (Data.rtype other.now.rdata))
        (Data.canonical record.now.rdata other.now.rdata))) }
{}

/// The order of questions is total, by name, type and class. It ties exactly the equal ones, and these hash alike.
/// Their canonical order is by the name's octets in lower case, type and class.
pub fn question_orders_by_name_type_class<N: ToName>(question: &Question<N>, other: &Question<N>)
    ensures total { IsTotalOrder ⟦<Question<N> as Ord>⟧.cmp }
    ensures order { ⟦<Question<N> as Ord>⟧.cmp question.now other.now
        ≡ ordering_then (labels_order (question_of N.name question.now).name (question_of N.name other.now).name)
        (ordering_then (nat_cmp (question_of N.name question.now).qtype (question_of N.name other.now).qtype)
        (nat_cmp (question_of N.name question.now).qclass (question_of N.name other.now).qclass)) }
    ensures equality { ⟦<Question<N> as PartialEq>⟧.eq question.now other.now
        ≡ is_eq (⟦<Question<N> as Ord>⟧.cmp question.now other.now) }
    ensures hash { IsTrue (⟦<Question<N> as PartialEq>⟧.eq question.now other.now)
        → ⟦<Question<N> as Hash>⟧.hash_input question.now ≡ ⟦<Question<N> as Hash>⟧.hash_input other.now }
    ensures canonical { ⟦<Question<N> as CanonicalOrd>⟧.canonical question.now other.now
        ≡ ordering_then
        (slice_cmp nat_cmp (wire (low (question_of N.name question.now).name)) (wire (low (question_of N.name other.now).name)))
        (ordering_then (nat_cmp (question_of N.name question.now).qtype (question_of N.name other.now).qtype)
        (nat_cmp (question_of N.name question.now).qclass (question_of N.name other.now).qclass)) }
{}

/// The order of record headers is total, by owner, type, class, TTL and data length. It ties exactly the equal ones,
/// and these hash alike.
pub fn record_header_orders_by_fields<N: ToName>(header: &RecordHeader<N>, other: &RecordHeader<N>)
    ensures total { IsTotalOrder ⟦<RecordHeader<N> as Ord>⟧.cmp }
    ensures order { ⟦<RecordHeader<N> as Ord>⟧.cmp header.now other.now
        ≡ ordering_then (labels_order (labelled N.name header.now).owner (labelled N.name other.now).owner)
        (ordering_then (nat_cmp (labelled N.name header.now).rtype (labelled N.name other.now).rtype)
        (ordering_then (nat_cmp (labelled N.name header.now).class (labelled N.name other.now).class)
        (ordering_then (nat_cmp (labelled N.name header.now).ttl (labelled N.name other.now).ttl)
        (nat_cmp (labelled N.name header.now).data_len (labelled N.name other.now).data_len)))) }
    ensures equality { ⟦<RecordHeader<N> as PartialEq>⟧.eq header.now other.now
        ≡ is_eq (⟦<RecordHeader<N> as Ord>⟧.cmp header.now other.now) }
    ensures hash { IsTrue (⟦<RecordHeader<N> as PartialEq>⟧.eq header.now other.now)
        → ⟦<RecordHeader<N> as Hash>⟧.hash_input header.now ≡ ⟦<RecordHeader<N> as Hash>⟧.hash_input other.now }
{}
