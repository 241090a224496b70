//! The questions of answers.
ghost use Rattle.std.specs.Prelude.{◌↔◌, IsTrue};
ghost use Rattle.dns_name.specs.ParsedName.{labels_of};
ghost use Rattle.dns_header.specs.QuestionParts.{question_of};
ghost use Rattle.zone_receive.specs.Asked.{asked_of};
ghost use Rattle.zone_core.specs.Transfer.{IsQuestionOf};

use crate::owned_query::OwnedQuery;
use dns_message::Question;
use dns_name::{ParsedName, Rtype, ToName};

/// Returns whether the question is the query's, its name up to ASCII case.
pub(crate) fn is_question_of(question: &Question<ParsedName<&[u8]>>, query: &OwnedQuery) -> bool
    ensures { IsTrue result ↔ IsQuestionOf (asked_of query.now) (question_of labels_of question.now) }
{
    let same_numbers = question.qtype() == Rtype::AXFR && question.qclass() == query.class;
    same_numbers && question.qname().name_eq(&query.name)
}
