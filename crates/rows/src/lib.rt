//! Tests as rows: a program reads calls from standard input, a row each, and prints what each call returns.
//!
//! A library for programs that test other crates. It needs only `std`.
//!
//! - An empty line, or one that begins with `#`, is a title and is printed as it is.
//! - A line `let NAME = ARGUMENT` names an argument for the rows after it. It prints an empty line.
//! - Any other line is a row: words with single spaces between them. The first is the call as a Rust user knows it,
//!   such as `Name::from_slice`, and the others are its arguments.
//! - For each row the program prints one line: the values that the call returns with spaces between them, or `refused`
//!   and the name of the error. If the first word of a row, before the call, is `why`, the text of the error is printed
//!   instead of its name. If it is `again`, and the arguments of the call are steps that it takes one after another,
//!   a step that is refused is taken once more.
//!
//! So `paste -d'|' stdin stdout` shows each call next to its answer.
//!
//! A number is decimal. Octets are hexadecimal digits, or `-` if there are none. A text is in quotes, in which `\n`,
//! `\r`, `\t`, `\"` and `\\` are as in Rust, and `\xHH` is an octet:
//!
//! ```text
//! let SOA = "a. 60 IN SOA b. c. 1 2 3 4 5\n"
//! Zone::print IN $SOA+"b.a. 60 IN A 1.2.3.4\n"
//! ```
//!
//! An argument may be pieces with `+` between them: all octets, or all texts. `*` and a number repeat a piece:
//! `0161*127+00`, `"x"*63`. A piece may be `$NAME`, with a name of ASCII letters, digits and `_`.
//!
//! In answers, and in arguments without quotes, a text is written as it is, but `%` and two hexadecimal digits stand for
//! an octet of UTF-8, `%20` for a space, and `-` is the empty text. An argument that begins with a quote is quoted.
//!
//! A row with an unknown call, bad arguments, an unknown name or an unclosed quote ends the program with status 1, so
//! that no row is skipped. So does a name that is given twice.
#![tactic(auto)]

mod answer;
mod names;
mod octets;
mod program;
mod row;
mod words;

pub use answer::Answer;
pub use program::{Calls, answer_rows};
pub use row::{Row, RowError};
