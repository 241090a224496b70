//! Laws of streams that are sent. A law is a function with an empty body whose contract is the law.

mod canonical;
mod one;
mod sent;
mod spelled;

pub use canonical::{near_records_have_the_same_canonical_octets, transfers_keep_canonical_octets};
pub use one::{one_stream_or_one_blocked_record, sent_again_is_the_same};
pub use sent::{
    plain_full_cut_is_fewest, received_is_sent_again, sent_is_a_transfer, zones_can_be_sent,
};
pub use spelled::{
    free_messages_are_no_fewer, hash_full_cut_is_fewest, message_octets_are_a_sum,
    spelled_fronts_fit, spelled_is_a_transfer, spelled_is_sent_again, tree_full_cut_is_fewest,
    written_records_have_names,
};
