//! Laws of names that are compressed. A law is a function with an empty body whose contract is the law.

pub mod read_back;
pub mod size;
