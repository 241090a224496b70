//! Builders of messages.
ghost use Rattle.std.specs.Prelude.{◌≡◌, length};

mod answer;
mod convert;
mod opt;
mod push;
mod record_target;
mod start;
mod steps;
mod stream;
mod views;

use crate::draft::Draft;
use crate::section::{Additionals, Answers, Authorities, BuilderSection, Questions, Start};
use dns_name::Composer;
pub use push::RecordSectionBuilder;
use std::marker::PhantomData;

/// A builder of a message over a target. `S` is the last section that was started.
///
/// Items are pushed into that section. Going on to a later section keeps everything. Going back to an earlier one drops
/// the sections after it. Both move the target and copy no octet.
///
/// Contracts see the message that is built, and its octets.
#[derive(Debug, Drop)]
pub struct SectionBuilder<Target: Composer, S: BuilderSection> {
    draft: Draft<Target>,
    section: PhantomData<S>,
    ghost begun: { length draft.starts.items ≡ S.number },
}

/// A builder of a message in which no section was started.
pub type MessageBuilder<Target> = SectionBuilder<Target, Start>;

/// A builder of a message, in its question section.
pub type QuestionBuilder<Target> = SectionBuilder<Target, Questions>;

/// A builder of a message, in its answer section.
pub type AnswerBuilder<Target> = SectionBuilder<Target, Answers>;

/// A builder of a message, in its authority section.
pub type AuthorityBuilder<Target> = SectionBuilder<Target, Authorities>;

/// A builder of a message, in its additional section.
pub type AdditionalBuilder<Target> = SectionBuilder<Target, Additionals>;
