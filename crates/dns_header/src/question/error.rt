//! Why a text is parsed as no question.
ghost use Rattle.std.specs.Prelude.{◌≡◌};
ghost use Rattle.dns_header.specs.declared.question.error.FromStrError.TheVariants.{Presentation};
ghost use Rattle.dns_header.specs.QuestionText.{name_fault};

use thiserror::Error;

/// Why a text is parsed as no question.
#[derive(Clone, Copy, Debug, PartialEq, Eq, Error)]
pub enum FromStrError {
    /// The text spells no question.
    #[error("{0}")]
    Presentation(PresentationError),
    /// Out of memory, or the name has no room.
    #[error("short buffer")]
    ShortBuf,
}

/// Why a text spells no question.
#[derive(Clone, Copy, Debug, PartialEq, Eq, Error)]
pub enum PresentationError {
    /// The first word spells no name.
    #[error("{0}")]
    BadName(dns_name::PresentationError),
    /// The text has no word.
    #[error("missing qname")]
    MissingQname,
    /// Nothing follows the name.
    #[error("missing class and qtype")]
    MissingClassAndQtype,
    /// Nothing follows the name and the class.
    #[error("missing qtype")]
    MissingQtype,
    /// The word after the type is no class.
    #[error("invalid class")]
    BadClass,
    /// The word after the name, or after the name and the class, is no type.
    #[error("invalid qtype")]
    BadQtype,
}

impl From<PresentationError> for FromStrError {
    ghost from_gives = { λ reason error. error ≡ Presentation reason };

    fn from(reason: PresentationError) -> FromStrError {
        FromStrError::Presentation(reason)
    }
}

impl From<dns_name::FromStrError> for FromStrError {
    ghost from_gives = { λ reason error. error ≡ name_fault reason };

    fn from(reason: dns_name::FromStrError) -> FromStrError {
        match reason {
            dns_name::FromStrError::Presentation(reason) => {
                FromStrError::Presentation(PresentationError::BadName(reason))
            }
            dns_name::FromStrError::ShortBuf => FromStrError::ShortBuf,
        }
    }
}
