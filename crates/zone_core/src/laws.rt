//! Laws of the definitions that the contracts of sending and receiving use. A law is a function with an empty body
//! whose contract is the law.

mod cutting;
mod framing;
mod query;
mod transfer;

pub use cutting::{
    blocked_record_fits_no_cutting, blocked_record_is_one, cut_or_blocked, full_cut_is_fewest,
    full_cut_is_one, parts_fit_where_size_grows, sum_of_sizes_grows,
};
pub use framing::two_splits_are_one;
pub use query::{made_query_is_read, one_query_fault, query_asks_one_thing, query_breaks_no_rule};
pub use transfer::transfers_are_one;
