//! The sections of a builder (RFC 1035 4.1).
ghost use Rattle.std.specs.Prelude.{◌≡◌, ◌≤◌, ◌<◌, ℕ};
ghost use Rattle.std.proofs.Common.{arith};

mod others;

pub use others::OtherThan;

/// The section of a builder: the last one that was started.
///
/// `number` is how many sections were started.
pub trait BuilderSection {
    ghost number: { ℕ };

    /// Returns how many sections were started: 0 to 4.
    fn number() -> usize
        ensures { result ≡ number };

    ghost few: { number ≤ 4 };
}

/// A section that was started, in contrast to `Start`.
pub trait BegunSection: BuilderSection {
    ghost begun: { 0 < Self.number };
}

/// A section of records.
pub trait RecordsSection: BegunSection {
    /// The next section of records. The last one is its own next one.
    type Next: BuilderSection;
}

/// No section was started.
#[derive(Debug, Drop)]
pub struct Start {}

/// The question section.
#[derive(Debug, Drop)]
pub struct Questions {}

/// The answer section.
#[derive(Debug, Drop)]
pub struct Answers {}

/// The authority section.
#[derive(Debug, Drop)]
pub struct Authorities {}

/// The additional section.
#[derive(Debug, Drop)]
pub struct Additionals {}

impl BuilderSection for Start {
    ghost number = { 0 };

    fn number() -> usize {
        0
    }

    ghost few = { Prim.omega arith };
}

impl BuilderSection for Questions {
    ghost number = { 1 };

    fn number() -> usize {
        1
    }

    ghost few = { Prim.omega arith };
}

impl BuilderSection for Answers {
    ghost number = { 2 };

    fn number() -> usize {
        2
    }

    ghost few = { Prim.omega arith };
}

impl BuilderSection for Authorities {
    ghost number = { 3 };

    fn number() -> usize {
        3
    }

    ghost few = { Prim.omega arith };
}

impl BuilderSection for Additionals {
    ghost number = { 4 };

    fn number() -> usize {
        4
    }

    ghost few = { Prim.omega arith };
}

impl BegunSection for Questions {
    ghost begun = { Prim.omega arith };
}

impl BegunSection for Answers {
    ghost begun = { Prim.omega arith };
}

impl BegunSection for Authorities {
    ghost begun = { Prim.omega arith };
}

impl BegunSection for Additionals {
    ghost begun = { Prim.omega arith };
}

impl RecordsSection for Answers {
    type Next = Authorities;
}

impl RecordsSection for Authorities {
    type Next = Additionals;
}

impl RecordsSection for Additionals {
    type Next = Additionals;
}
