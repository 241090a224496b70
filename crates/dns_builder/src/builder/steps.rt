//! Going from one section to another.
use super::{
    AdditionalBuilder, AnswerBuilder, AuthorityBuilder, MessageBuilder, QuestionBuilder,
    SectionBuilder,
};
use crate::section::{Answers, BegunSection, BuilderSection, RecordsSection};
use dns_name::Composer;
use std::marker::PhantomData;

impl<Target: Composer, S: BuilderSection> SectionBuilder<Target, S> {
    ghost use Rattle.std.specs.Prelude.{◌≡◌};
    ghost use Rattle.dns_builder.specs.Built.{Built, IsDraftOf};
    ghost use Rattle.dns_builder.specs.Steps.{going_to, KeepsLimits};
    ghost use Rattle.dns_builder.specs.Seen.{draft_of, target_in};

    /// Goes to another section: drops later ones, and starts missing ones, which are empty.
    pub(super) fn go_to<To: BuilderSection>(self) -> SectionBuilder<Target, To>
        ensures built { (built : Built) → IsDraftOf Target.spelling built (draft_of self)
            → IsDraftOf Target.spelling (going_to To.number built) (draft_of result) }
        ensures limits { KeepsLimits (draft_of self) (draft_of result) }
        ensures stays { Target.stays (target_in self) (target_in result) }
    {
        let mut draft = self.draft;
        draft.go_to(To::number());
        SectionBuilder {
            draft,
            section: PhantomData,
        }
    }

    /// Drops all sections.
    pub fn builder(self) -> MessageBuilder<Target>
        ensures built { (built : Built) → IsDraftOf Target.spelling built (draft_of self)
            → IsDraftOf Target.spelling (going_to 0 built) (draft_of result) }
        ensures limits { KeepsLimits (draft_of self) (draft_of result) }
        ensures stays { Target.stays (target_in self) (target_in result) }
    {
        self.go_to()
    }

    /// Goes to the questions: drops the sections after them, or starts them.
    pub fn question(self) -> QuestionBuilder<Target>
        ensures built { (built : Built) → IsDraftOf Target.spelling built (draft_of self)
            → IsDraftOf Target.spelling (going_to 1 built) (draft_of result) }
        ensures limits { KeepsLimits (draft_of self) (draft_of result) }
        ensures stays { Target.stays (target_in self) (target_in result) }
    {
        self.go_to()
    }

    /// Goes to the answer section: drops the sections after it, or starts it and the missing ones before it, which are
    /// empty.
    pub fn answer(self) -> AnswerBuilder<Target>
        ensures built { (built : Built) → IsDraftOf Target.spelling built (draft_of self)
            → IsDraftOf Target.spelling (going_to 2 built) (draft_of result) }
        ensures limits { KeepsLimits (draft_of self) (draft_of result) }
        ensures stays { Target.stays (target_in self) (target_in result) }
    {
        self.go_to()
    }

    /// Goes to the authority section: drops the section after it, or starts it and the missing ones before it, which
    /// are empty.
    pub fn authority(self) -> AuthorityBuilder<Target>
        ensures built { (built : Built) → IsDraftOf Target.spelling built (draft_of self)
            → IsDraftOf Target.spelling (going_to 3 built) (draft_of result) }
        ensures limits { KeepsLimits (draft_of self) (draft_of result) }
        ensures stays { Target.stays (target_in self) (target_in result) }
    {
        self.go_to()
    }

    /// Goes to the additional section: starts it and the missing ones before it, which are empty.
    pub fn additional(self) -> AdditionalBuilder<Target>
        ensures built { (built : Built) → IsDraftOf Target.spelling built (draft_of self)
            → IsDraftOf Target.spelling (going_to 4 built) (draft_of result) }
        ensures limits { KeepsLimits (draft_of self) (draft_of result) }
        ensures stays { Target.stays (target_in self) (target_in result) }
    {
        self.go_to()
    }

    /// Returns the target.
    pub fn finish(self) -> Target
        ensures { result ≡ target_in self }
    {
        self.draft.into_target()
    }
}

impl<Target: Composer, S: BegunSection> SectionBuilder<Target, S> {
    ghost use Rattle.std.specs.Prelude.{◌-◌};
    ghost use Rattle.dns_builder.specs.Built.{Built, IsDraftOf};
    ghost use Rattle.dns_builder.specs.Steps.{going_to, KeepsLimits};
    ghost use Rattle.dns_builder.specs.Seen.{draft_of, target_in};

    /// Removes all items of the section.
    pub fn rewind(&mut self)
        ensures built { (built : Built) → IsDraftOf Target.spelling built (draft_of self.old)
            → IsDraftOf Target.spelling (going_to S.number (going_to (S.number - 1) built)) (draft_of self.new) }
        ensures limits { KeepsLimits (draft_of self.old) (draft_of self.new) }
        ensures stays { Target.stays (target_in self.old) (target_in self.new) }
    {
        self.draft.rewind(S::number());
    }
}

impl<Target: Composer, S: RecordsSection> SectionBuilder<Target, S> {
    ghost use Rattle.std.specs.Prelude.{◌-◌};
    ghost use Rattle.dns_builder.specs.Built.{Built, IsDraftOf};
    ghost use Rattle.dns_builder.specs.Steps.{going_to, IsTruncated, KeepsLimits};
    ghost use Rattle.dns_builder.specs.Seen.{draft_of, target_in};

    /// Removes all items of the section, and returns the builder.
    pub fn rewind_into(mut self) -> Self
        ensures built { (built : Built) → IsDraftOf Target.spelling built (draft_of self)
            → IsDraftOf Target.spelling (going_to S.number (going_to (S.number - 1) built)) (draft_of result) }
        ensures limits { KeepsLimits (draft_of self) (draft_of result) }
        ensures stays { Target.stays (target_in self) (target_in result) }
    {
        self.rewind();
        self
    }

    /// Removes all items of the section, sets TC in the header, and returns the builder.
    pub fn tc_rewind_into(mut self) -> Self
        ensures built { (built : Built) → IsDraftOf Target.spelling built (draft_of self)
            → (truncated : Built) × IsTruncated (going_to S.number (going_to (S.number - 1) built)) truncated
            × IsDraftOf Target.spelling truncated (draft_of result) }
        ensures limits { KeepsLimits (draft_of self) (draft_of result) }
        ensures stays { Target.stays (target_in self) (target_in result) }
    {
        self.rewind();
        let mut header = self.header();
        header.set_tc(true);
        self.set_header(header);
        self
    }
}

impl<Target: Composer> SectionBuilder<Target, Answers> {
    ghost use Rattle.std.specs.Prelude.{◌≡◌};
    ghost use Rattle.dns_builder.specs.Seen.{target_in};

    /// Returns the target.
    pub fn into_target(self) -> Target
        ensures { result ≡ target_in self }
    {
        self.finish()
    }
}
