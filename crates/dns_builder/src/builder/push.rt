//! Pushing questions and records.
use super::SectionBuilder;
use crate::item::{QuestionItem, RecordItem};
use crate::section::{Answers, Questions, RecordsSection};
use dns_header::{ComposeQuestion, ComposeRecord};
use dns_name::Composer;
use dns_sections::PushError;

/// A builder of a record section, over a target.
///
/// `number` is the number of that section: 1 for the answers, 2 for the authority section, 3 for the additional one.
/// `draft` is what contracts see of the builder, and `target` its target.
pub trait RecordSectionBuilder<Target: Composer> {
    ghost use Rattle.std.specs.Prelude.{◌≡◌, ◌<◌, ℕ, OnOk, OnErr, IfErr};
    ghost use Rattle.dns_header.specs.Written.{parts_of, data_length};
    ghost use Rattle.dns_builder.specs.Built.{Built, Draft, IsDraftOf};
    ghost use Rattle.dns_builder.specs.Steps.{with_item, IsTakenBy, IsRefusedBy, KeepsLimits};

    ghost number: { ℕ };

    ghost draft: { Self → Draft };

    ghost target: { Self → Target };

    /// Appends a record and counts it. If the call fails, nothing changes.
    ///
    /// Fails with `ShortBuf` only if the target is too full, with `BadLength` only if the data has more than 65,535
    /// octets, with `LimitExceeded` if the message would be as long as the push limit or longer, with `CountOverflow`
    /// if the section has 65,535 records, and with `OutOfMemory` if out of memory.
    fn push<R: ComposeRecord + Drop>(&mut self, record: R) -> Result<(), PushError>
        ensures ok { (built : Built) → IsDraftOf Target.spelling built (draft self.old)
            → OnOk result (IsDraftOf Target.spelling (with_item built (parts_of (R.written «record»))) (draft self.new)) }
        ensures taken { OnOk result (IsTakenBy Target.spelling number (draft self.old) (parts_of (R.written «record»))
            (65535 < data_length Target.spelling (draft self.old).page (R.written «record»))) }
        ensures err { OnErr result ((draft self.new) ≡ (draft self.old)) }
        ensures why { IfErr result (IsRefusedBy Target.spelling number (draft self.old) (parts_of (R.written «record»))
            (65535 < data_length Target.spelling (draft self.old).page (R.written «record»))) }
        ensures limits { KeepsLimits (draft self.old) (draft self.new) }
        ensures stays { Target.stays (target self.old) (target self.new) };
}

impl<Target: Composer, S: RecordsSection> RecordSectionBuilder<Target>
    for SectionBuilder<Target, S> {
    ghost use Rattle.std.specs.Prelude.{◌-◌};
    ghost use Rattle.dns_builder.specs.Seen.{draft_of, target_in};

    ghost number = { S.number - 1 };

    ghost draft = { draft_of };

    ghost target = { target_in };

    fn push<R: ComposeRecord + Drop>(&mut self, record: R) -> Result<(), PushError> {
        self.push_record(&record)
    }
}

impl<Target: Composer> SectionBuilder<Target, Questions> {
    ghost use Rattle.std.specs.Prelude.{◌≡◌, OnOk, OnErr, IfErr};
    ghost use Rattle.dns_header.specs.Question.{question_parts};
    ghost use Rattle.dns_builder.specs.Built.{Built, IsDraftOf};
    ghost use Rattle.dns_builder.specs.Steps.{with_item, IsTakenBy, IsRefusedBy, KeepsLimits};
    ghost use Rattle.dns_builder.specs.Seen.{draft_of, target_in};

    /// Appends a question and counts it. If the call fails, nothing changes.
    ///
    /// Fails with `ShortBuf` only if the target is too full, with `LimitExceeded` if the message would be as long as
    /// the push limit or longer, with `CountOverflow` if there are 65,535 questions, and with `OutOfMemory` if out of
    /// memory.
    pub fn push<Q: ComposeQuestion + Drop>(&mut self, question: Q) -> Result<(), PushError>
        ensures ok { (built : Built) → IsDraftOf Target.spelling built (draft_of self.old)
            → OnOk result (IsDraftOf Target.spelling (with_item built (question_parts (Q.question question))) (draft_of self.new)) }
        ensures taken { OnOk result (IsTakenBy Target.spelling 0 (draft_of self.old) (question_parts (Q.question question))
            ⊥) }
        ensures err { OnErr result ((draft_of self.new) ≡ (draft_of self.old)) }
        ensures why { IfErr result (IsRefusedBy Target.spelling 0 (draft_of self.old) (question_parts (Q.question question))
            ⊥) }
        ensures limits { KeepsLimits (draft_of self.old) (draft_of self.new) }
        ensures stays { Target.stays (target_in self.old) (target_in self.new) }
    {
        self.draft.push_item(0, &QuestionItem { inner: &question })
    }
}

impl<Target: Composer, S: RecordsSection> SectionBuilder<Target, S> {
    ghost use Rattle.std.specs.Prelude.{◌≡◌, ◌-◌, ◌<◌, OnOk, OnErr, IfErr};
    ghost use Rattle.dns_header.specs.Written.{parts_of, data_length};
    ghost use Rattle.dns_builder.specs.Built.{Built, IsDraftOf};
    ghost use Rattle.dns_builder.specs.Steps.{with_item, IsTakenBy, IsRefusedBy, KeepsLimits};
    ghost use Rattle.dns_builder.specs.Seen.{draft_of, target_in};

    /// Appends a record and counts it. If the call fails, nothing changes.
    pub(super) fn push_record<R: ComposeRecord>(&mut self, record: &R) -> Result<(), PushError>
        ensures ok { (built : Built) → IsDraftOf Target.spelling built (draft_of self.old)
            → OnOk result (IsDraftOf Target.spelling (with_item built (parts_of (R.written «record».now))) (draft_of self.new)) }
        ensures taken { OnOk result (IsTakenBy Target.spelling (S.number - 1) (draft_of self.old) (parts_of (R.written «record».now))
            (65535 < data_length Target.spelling (draft_of self.old).page (R.written «record».now))) }
        ensures err { OnErr result ((draft_of self.new) ≡ (draft_of self.old)) }
        ensures why { IfErr result (IsRefusedBy Target.spelling (S.number - 1) (draft_of self.old) (parts_of (R.written «record».now))
            (65535 < data_length Target.spelling (draft_of self.old).page (R.written «record».now))) }
        ensures limits { KeepsLimits (draft_of self.old) (draft_of self.new) }
        ensures stays { Target.stays (target_in self.old) (target_in self.new) }
    {
        self.draft
            .push_item(S::number() - 1, &RecordItem { inner: record })
    }

    /// Appends a record and counts it. If the call fails, nothing changes.
    ///
    /// Fails with `ShortBuf` only if the target is too full, with `BadLength` only if the data has more than 65,535
    /// octets, with `LimitExceeded` if the message would be as long as the push limit or longer, with `CountOverflow`
    /// if the section has 65,535 records, and with `OutOfMemory` if out of memory.
    pub fn push<R: ComposeRecord + Drop>(&mut self, record: R) -> Result<(), PushError>
        ensures ok { (built : Built) → IsDraftOf Target.spelling built (draft_of self.old)
            → OnOk result (IsDraftOf Target.spelling (with_item built (parts_of (R.written «record»))) (draft_of self.new)) }
        ensures taken { OnOk result (IsTakenBy Target.spelling (S.number - 1) (draft_of self.old) (parts_of (R.written «record»))
            (65535 < data_length Target.spelling (draft_of self.old).page (R.written «record»))) }
        ensures err { OnErr result ((draft_of self.new) ≡ (draft_of self.old)) }
        ensures why { IfErr result (IsRefusedBy Target.spelling (S.number - 1) (draft_of self.old) (parts_of (R.written «record»))
            (65535 < data_length Target.spelling (draft_of self.old).page (R.written «record»))) }
        ensures limits { KeepsLimits (draft_of self.old) (draft_of self.new) }
        ensures stays { Target.stays (target_in self.old) (target_in self.new) }
    {
        self.push_record(&record)
    }
}

impl<Target: Composer> SectionBuilder<Target, Answers> {
    ghost use Rattle.std.specs.Prelude.{◌≡◌, ◌<◌, OnOk, OnErr, IfErr};
    ghost use Rattle.dns_header.specs.Written.{parts_of, data_length};
    ghost use Rattle.dns_builder.specs.Built.{Built, IsDraftOf};
    ghost use Rattle.dns_builder.specs.Steps.{with_item, IsTakenBy, IsRefusedBy, KeepsLimits};
    ghost use Rattle.dns_builder.specs.Seen.{draft_of, target_in};

    /// Appends a record by reference and counts it, as `push` does.
    pub fn push_ref<R: ComposeRecord>(&mut self, record: &R) -> Result<(), PushError>
        ensures ok { (built : Built) → IsDraftOf Target.spelling built (draft_of self.old)
            → OnOk result (IsDraftOf Target.spelling (with_item built (parts_of (R.written «record».now))) (draft_of self.new)) }
        ensures taken { OnOk result (IsTakenBy Target.spelling 1 (draft_of self.old) (parts_of (R.written «record».now))
            (65535 < data_length Target.spelling (draft_of self.old).page (R.written «record».now))) }
        ensures err { OnErr result ((draft_of self.new) ≡ (draft_of self.old)) }
        ensures why { IfErr result (IsRefusedBy Target.spelling 1 (draft_of self.old) (parts_of (R.written «record».now))
            (65535 < data_length Target.spelling (draft_of self.old).page (R.written «record».now))) }
        ensures limits { KeepsLimits (draft_of self.old) (draft_of self.new) }
        ensures stays { Target.stays (target_in self.old) (target_in self.new) }
    {
        self.push_record(record)
    }
}
