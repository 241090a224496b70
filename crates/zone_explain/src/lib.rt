//! Why a text is no zone's (RFC 1035 5): the first rule that it breaks, or each fault, with the line, the token and the
//! reason.
#![tactic(auto)]

pub mod explain;
