//! Whether and what a message answers.
ghost use Rattle.std.specs.Prelude.{◌≡◌, true, false, Some, None, option_map};
ghost use Rattle.dns_name.specs.ParsedName.{labels_of};
ghost use Rattle.dns_sections.specs.Aliases.{HasCanonicalName};
ghost use Rattle.dns_sections.specs.Answers.{IsAnswerTo};
ghost use Rattle.dns_sections.specs.Firsts.{GivesFirst};
ghost use Rattle.dns_sections.specs.Message.{octets_in};
ghost use Rattle.dns_sections.specs.declared.section.Section.TheVariants.{Answer};

use crate::Message;
use crate::aliases::resolved;
use dns_name::{Octets, ParseRecordData, ParsedName};

impl<Octs: Octets> Message<Octs> {
    /// Returns whether this message answers a query (RFC 1035 4.1.1).
    ///
    /// It does if it is a response, has the query's ID, and counts and asks the same questions, names up to ASCII case.
    /// If a question of either message does not parse, it does not.
    pub fn is_answer<Other: Octets>(&self, query: &Message<Other>) -> bool
        ensures yes { result ≡ true → IsAnswerTo (octets_in Octs.list self.now) (octets_in Other.list query.now) }
        ensures no { result ≡ false → IsAnswerTo (octets_in Octs.list self.now) (octets_in Other.list query.now) → ⊥ }
    {
        let header = self.header();
        if !header.qr() {
            return false;
        }
        if header.id() != query.header().id() {
            return false;
        }
        if self.header_counts().qdcount() != query.header_counts().qdcount() {
            return false;
        }
        self.question().asks_the_same(query.question())
    }

    /// Returns whether the answer section has a record whose type `Data` takes.
    ///
    /// Returns true also if the data of the first such record does not parse, or the header or length of a record
    /// before it. Returns false if the section cannot be reached.
    pub fn contains_answer<'s, Data: ParseRecordData<'s>>(&'s self) -> bool
    where
        Data: Drop,
        ensures yes { result ≡ true → (item : _) × GivesFirst Data.takes Data.reads (octets_in Octs.list self.now) Answer (Some item) }
        ensures no { result ≡ false → GivesFirst Data.takes Data.reads (octets_in Octs.list self.now) Answer None }
    {
        match self.answer() {
            Ok(answer) => answer.limit_to::<Data>().next().is_some(),
            Err(_) => false,
        }
    }

    /// Returns the canonical name of the first question's name (RFC 1034 3.6.2).
    ///
    /// The name is an alias if the answer section has a CNAME record with this owner, up to ASCII case. The first such
    /// record counts, of any class; one whose data does not parse is skipped. Follows at most 20 aliases. Returns None
    /// if more follow, if there is no first question or it does not parse, or if the section cannot be reached.
    pub fn canonical_name(&self) -> Option<ParsedName<&[u8]>>
        ensures { HasCanonicalName (octets_in Octs.list self.now) (option_map labels_of result) }
    {
        match self.answer() {
            Ok(answer) => match self.first_question() {
                Some(question) => resolved(answer, *question.qname()),
                None => None,
            },
            Err(_) => None,
        }
    }
}
