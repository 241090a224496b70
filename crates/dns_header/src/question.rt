//! Questions (RFC 1035 4.1.2).
ghost use Rattle.std.specs.Prelude.{◌≡◌};

mod compose;
mod convert;
mod error;
mod from_str;
mod order;
mod read;

pub use compose::ComposeQuestion;
use dns_name::{Class, Rtype};
pub use error::{FromStrError, PresentationError};
pub(crate) use order::same_names;

/// A question: a name, a type and a class.
#[derive(Clone, Copy, Debug, Drop)]
pub struct Question<N> {
    qname: N,
    qtype: Rtype,
    qclass: Class,
}

impl<N> Question<N> {
    ghost use Rattle.dns_header.specs.QuestionParts.{qname_of};

    /// Returns the question for a name, a type and a class.
    pub fn new(qname: N, qtype: Rtype, qclass: Class) -> Self
        ensures qname { qname_of result ≡ qname }
        ensures qtype { result.qtype ≡ qtype }
        ensures qclass { result.qclass ≡ qclass }
    {
        Question {
            qname,
            qtype,
            qclass,
        }
    }

    /// Returns the question for a name and a type in class IN.
    pub fn new_in(qname: N, qtype: Rtype) -> Self
        ensures qname { qname_of result ≡ qname }
        ensures qtype { result.qtype ≡ qtype }
        ensures qclass { result.qclass ≡ 1 }
    {
        Question::new(qname, qtype, Class::IN)
    }

    /// Returns the name.
    pub fn qname(&self) -> &N
        ensures { result.now ≡ qname_of self.now }
    {
        &self.qname
    }

    /// Returns the name, and drops the rest.
    pub fn into_qname(self) -> N
        ensures { result ≡ qname_of self }
    {
        self.qname
    }

    /// Returns the type.
    pub fn qtype(&self) -> Rtype
        ensures { result ≡ self.now.qtype }
    {
        self.qtype
    }

    /// Returns the class.
    pub fn qclass(&self) -> Class
        ensures { result ≡ self.now.qclass }
    {
        self.qclass
    }
}

impl<N> From<(N, Rtype, Class)> for Question<N> {
    ghost use Rattle.dns_header.specs.QuestionParts.{qname_of};

    ghost from_gives = { λ parts question. (qname_of question ≡ parts.0) × (question.qtype ≡ parts.1) × (question.qclass ≡ parts.2) };

    fn from((qname, qtype, qclass): (N, Rtype, Class)) -> Self {
        Question::new(qname, qtype, qclass)
    }
}

/// Of class IN.
impl<N> From<(N, Rtype)> for Question<N> {
    ghost use Rattle.dns_header.specs.QuestionParts.{qname_of};

    ghost from_gives = { λ parts question. (qname_of question ≡ parts.0) × (question.qtype ≡ parts.1) × (question.qclass ≡ 1) };

    fn from((qname, qtype): (N, Rtype)) -> Self {
        Question::new_in(qname, qtype)
    }
}
