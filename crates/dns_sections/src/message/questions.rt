//! What a message asks.
ghost use Rattle.std.specs.Prelude.{◌≡◌, ◌⊎◌, true, false, IfSome, IfNone, IfOk, IfErr};
ghost use Rattle.dns_name.specs.ParsedName.{labels_of};
ghost use Rattle.dns_header.specs.Header.{question_count};
ghost use Rattle.dns_header.specs.Question as spec;
ghost use Rattle.dns_header.specs.QuestionParts.{question_of};
ghost use Rattle.dns_sections.specs.Asked.{IsFirstQuestion, HasNoSoleQuestion};
ghost use Rattle.dns_sections.specs.Message.{octets_in};

use crate::Message;
use dns_header::Question;
use dns_name::{Octets, ParseError, ParsedName, Rtype};

impl<Octs: Octets> Message<Octs> {
    /// Returns the first question, or None if there is none or it does not parse.
    pub fn first_question(&self) -> Option<Question<ParsedName<&[u8]>>>
        ensures some { IfSome result (λ question. IsFirstQuestion (octets_in Octs.list self.now) (question_of labels_of question)) }
        ensures none { IfNone result ((question : spec.Question) → IsFirstQuestion (octets_in Octs.list self.now) question → ⊥) }
    {
        match self.question().next() {
            Some(Ok(question)) => Some(question),
            Some(Err(_)) => None,
            None => None,
        }
    }

    /// Returns the question, if the message counts exactly one.
    ///
    /// Fails with a form error if it counts none or several, and with the question's error if that does not parse.
    pub fn sole_question(&self) -> Result<Question<ParsedName<&[u8]>>, ParseError>
        ensures ok { IfOk result (λ question. (question_count (octets_in Octs.list self.now) ≡ 1)
            × IsFirstQuestion (octets_in Octs.list self.now) (question_of labels_of question)) }
        ensures err { IfErr result (HasNoSoleQuestion (octets_in Octs.list self.now)) }
    {
        match self.header_counts().qdcount() {
            0 => return Err(ParseError::form_error("no question")),
            1 => {}
            _ => return Err(ParseError::form_error("multiple questions")),
        }
        match self.question().next() {
            Some(question) => question,
            None => Err(ParseError::form_error("no question")),
        }
    }

    /// Returns the type of the first question, or None if there is none or it does not parse.
    pub fn qtype(&self) -> Option<Rtype>
        ensures some { IfSome result (λ rtype. (question : spec.Question)
            × IsFirstQuestion (octets_in Octs.list self.now) question × (rtype ≡ question.qtype)) }
        ensures none { IfNone result ((question : spec.Question) → IsFirstQuestion (octets_in Octs.list self.now) question → ⊥) }
    {
        match self.first_question() {
            Some(question) => Some(question.qtype()),
            None => None,
        }
    }

    /// Returns whether the first question asks for a zone transfer: its type is IXFR (251) or AXFR (252).
    pub fn is_xfr(&self) -> bool
        ensures yes { result ≡ true → (question : spec.Question) × IsFirstQuestion (octets_in Octs.list self.now) question
            × ((question.qtype ≡ 251) ⊎ (question.qtype ≡ 252)) }
        ensures no { result ≡ false → (question : spec.Question) → IsFirstQuestion (octets_in Octs.list self.now) question
            → (question.qtype ≡ 251) ⊎ (question.qtype ≡ 252) → ⊥ }
    {
        match self.qtype() {
            Some(rtype) => rtype == Rtype::IXFR || rtype == Rtype::AXFR,
            None => false,
        }
    }
}
