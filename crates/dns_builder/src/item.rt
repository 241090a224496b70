//! What is pushed into a section: a question or a record.
ghost use Rattle.std.specs.Prelude.{◌≡◌, ◌<◌, Err, length, OnOk, OnErr};
ghost use Rattle.dns_octets.specs.Builder.{GrowsTo, IsPast};
ghost use Rattle.dns_octets.specs.declared.error.AppendError.TheVariants.{ShortBuf, BadLength};
ghost use Rattle.dns_name.specs.Spelling.{Spelling};
ghost use Rattle.dns_name.specs.Page.{Page, Parts, write};
ghost use Rattle.dns_name.specs.RecordData.{page_of};
ghost use Rattle.dns_header.specs.Question.{question_parts};
ghost use Rattle.dns_header.specs.Written.{parts_of, data_length};

use dns_header::{ComposeQuestion, ComposeRecord};
use dns_name::{AppendError, Composer};

/// An item of a section.
///
/// `IsLong` tells that it has data of more than 65,535 octets.
pub(crate) trait Item {
    ghost parts: { Self → Parts };

    ghost IsLong: { Self → Spelling → Page → Type 0 };

    /// Appends the item, all or nothing. Fails with `ShortBuf` only if the target is too full, with `BadLength` only if
    /// it has data of more than 65,535 octets, and with `OutOfMemory` if out of memory.
    fn append_to<Target: Composer>(&self, target: &mut Target) -> Result<(), AppendError>
        ensures ok { OnOk result (page_of (Target.list target.new) (Target.known target.new)
            ≡ write Target.spelling (page_of (Target.list target.old) (Target.known target.old)) (parts self.now)) }
        ensures err { OnErr result ((Target.list target.new ≡ Target.list target.old)
            × (Target.known target.new ≡ Target.known target.old)) }
        ensures grows { GrowsTo (Target.list target.old) (Target.known target.old) (Target.list target.new)
            (Target.known target.new) }
        ensures short { result ≡ Err ShortBuf → IsPast (Target.bound target.old)
            (length (write Target.spelling (page_of (Target.list target.old) (Target.known target.old))
            (parts self.now)).octets) }
        ensures bad { result ≡ Err BadLength → IsLong self.now Target.spelling
            (page_of (Target.list target.old) (Target.known target.old)) }
        ensures counts { OnOk result (IsLong self.now Target.spelling
            (page_of (Target.list target.old) (Target.known target.old)) → ⊥) }
        ensures same_bound { Target.bound target.new ≡ Target.bound target.old }
        ensures stays { Target.stays target.old target.new };
}

/// A question as an item.
#[derive(Drop)]
pub(crate) struct QuestionItem<'a, Q> {
    pub(crate) inner: &'a Q,
}

/// A record as an item.
#[derive(Drop)]
pub(crate) struct RecordItem<'a, R> {
    pub(crate) inner: &'a R,
}

impl<Q: ComposeQuestion> Item for QuestionItem<'_, Q> {
    ghost parts = { λ item. question_parts (Q.question item.inner.now) };

    ghost IsLong = { λ _ _ _. ⊥ };

    fn append_to<Target: Composer>(&self, target: &mut Target) -> Result<(), AppendError> {
        self.inner.compose_question(target)
    }
}

impl<R: ComposeRecord> Item for RecordItem<'_, R> {
    ghost parts = { λ item. parts_of (R.written item.inner.now) };

    ghost IsLong = { λ item s page. 65535 < data_length s page (R.written item.inner.now) };

    fn append_to<Target: Composer>(&self, target: &mut Target) -> Result<(), AppendError> {
        self.inner.compose_record(target)
    }
}
