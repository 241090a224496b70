//! The two forms of data of further types in the text of a zone: their presentation form, and the general form of RFC 3597,
//! which each zone reader knows.
//!
//! The text is rewritten row by row. What is no data of a further type stays as it is: comments, white space, directives.
//!
//! ```
//! let text = general(alloc, text, origin, Class::IN)?;
//! let zone = Zone::from_text(alloc, text, origin, Class::IN)?;
//! ```
//!
//! A `Rewriter` takes the text in pieces, and holds no more of it than a row.
#![tactic(auto)]

mod error;
pub mod laws;
mod presenting;
mod rewriter;
mod rows;
mod text_form;
mod texts;

pub use error::FormError;
pub use rewriter::{Form, Rewriter};
pub use texts::{general, present};
pub use zone_general::general_rows;
