//! Why octets are not a query for a zone's transfer.
use thiserror::Error;

/// The first rule that a query breaks, in the order of the variants (RFC 5936 2.1).
#[derive(Clone, Copy, Debug, PartialEq, Eq, Error)]
pub enum QueryError {
    /// The octets are fewer than the 12 of a header.
    #[error("query: short")]
    Short,
    /// The message is a response: QR is set.
    #[error("query: response")]
    Response,
    /// The opcode is not 0 (QUERY).
    #[error("query: opcode")]
    Opcode,
    /// The message does not count one question and no record.
    #[error("query: counts")]
    Counts,
    /// No question can be parsed after the header.
    #[error("query: malformed")]
    Malformed,
    /// The question's type is not AXFR.
    #[error("query: not AXFR")]
    NotAxfr,
    /// The question's class is ANY, which no zone has.
    #[error("query: class ANY")]
    ClassAny,
    /// Octets follow the question.
    #[error("query: trailing")]
    Trailing,
}
