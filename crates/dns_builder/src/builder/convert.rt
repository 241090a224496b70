//! Conversions between builders, and into messages.
use super::SectionBuilder;
use crate::section::{
    Additionals, Answers, Authorities, BuilderSection, OtherThan, Questions, Start,
};
use dns_name::{Composer, FreezeBuilder, Octets};
use dns_sections::Message;

impl<Target: Composer, S: BuilderSection + OtherThan<Start>> From<SectionBuilder<Target, S>>
    for SectionBuilder<Target, Start> {
    ghost use Rattle.dns_builder.specs.Moved.{MovesTo};
    ghost use Rattle.dns_builder.specs.Seen.{draft_of, target_in};

    ghost from_gives = { λ source builder. MovesTo Target.spelling 0 (draft_of source) (draft_of builder)
        × Target.stays (target_in source) (target_in builder) };

    fn from(source: SectionBuilder<Target, S>) -> Self {
        source.builder()
    }
}

impl<Target: Composer, S: BuilderSection + OtherThan<Questions>> From<SectionBuilder<Target, S>>
    for SectionBuilder<Target, Questions> {
    ghost use Rattle.dns_builder.specs.Moved.{MovesTo};
    ghost use Rattle.dns_builder.specs.Seen.{draft_of, target_in};

    ghost from_gives = { λ source builder. MovesTo Target.spelling 1 (draft_of source) (draft_of builder)
        × Target.stays (target_in source) (target_in builder) };

    fn from(source: SectionBuilder<Target, S>) -> Self {
        source.question()
    }
}

impl<Target: Composer, S: BuilderSection + OtherThan<Answers>> From<SectionBuilder<Target, S>>
    for SectionBuilder<Target, Answers> {
    ghost use Rattle.dns_builder.specs.Moved.{MovesTo};
    ghost use Rattle.dns_builder.specs.Seen.{draft_of, target_in};

    ghost from_gives = { λ source builder. MovesTo Target.spelling 2 (draft_of source) (draft_of builder)
        × Target.stays (target_in source) (target_in builder) };

    fn from(source: SectionBuilder<Target, S>) -> Self {
        source.answer()
    }
}

impl<Target: Composer, S: BuilderSection + OtherThan<Authorities>> From<SectionBuilder<Target, S>>
    for SectionBuilder<Target, Authorities> {
    ghost use Rattle.dns_builder.specs.Moved.{MovesTo};
    ghost use Rattle.dns_builder.specs.Seen.{draft_of, target_in};

    ghost from_gives = { λ source builder. MovesTo Target.spelling 3 (draft_of source) (draft_of builder)
        × Target.stays (target_in source) (target_in builder) };

    fn from(source: SectionBuilder<Target, S>) -> Self {
        source.authority()
    }
}

impl<Target: Composer, S: BuilderSection + OtherThan<Additionals>> From<SectionBuilder<Target, S>>
    for SectionBuilder<Target, Additionals> {
    ghost use Rattle.dns_builder.specs.Moved.{MovesTo};
    ghost use Rattle.dns_builder.specs.Seen.{draft_of, target_in};

    ghost from_gives = { λ source builder. MovesTo Target.spelling 4 (draft_of source) (draft_of builder)
        × Target.stays (target_in source) (target_in builder) };

    fn from(source: SectionBuilder<Target, S>) -> Self {
        source.additional()
    }
}

impl<Target: Composer + FreezeBuilder, S: BuilderSection> From<SectionBuilder<Target, S>>
    for Message<Target::Octets> {
    ghost use Rattle.std.specs.Prelude.{◌≡◌};
    ghost use Rattle.dns_sections.specs.Message as message;
    ghost use Rattle.dns_builder.specs.Seen.{draft_of};

    ghost from_gives = { λ source built. message.octets_in ⟦<Target::Octets as Octets>⟧.list built ≡ (draft_of source).page.octets };

    fn from(source: SectionBuilder<Target, S>) -> Self {
        source.into_message()
    }
}
