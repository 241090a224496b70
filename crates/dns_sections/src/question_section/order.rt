//! Equality of question sections.
ghost use Rattle.std.specs.Cmp.{on_per};
ghost use Rattle.std.specs.Ordering.{on};
ghost use Rattle.dns_sections.specs.DecidedQuestions.{ask_the_same, asks_equivalence};
ghost use Rattle.dns_sections.specs.Seen.{questions_at};

use super::QuestionSection;

/// The same remaining questions, in order, names up to ASCII case (RFC 4343).
///
/// A cursor with a question left that does not parse, or that met one before, equals none, not even itself.
impl PartialEq for QuestionSection<'_> {
    ghost eq = { on questions_at ask_the_same };

    ghost laws = { on_per questions_at asks_equivalence };

    fn eq(&self, other: &Self) -> bool {
        self.asks_the_same(*other)
    }
}
