//! Laws of the definitions that the contracts of zones and their transfers use. A law is a function with an empty body
//! whose contract is the law.

mod jobs;
mod passed;

pub use jobs::one_output_or_fault;
pub use passed::{sent_by_a_job_is_received, sent_received_and_printed_is_the_zone};
pub use zone::laws::{
    class_any_has_one_fault, one_zone_fault, printed_text_is_the_zones,
    records_have_one_printed_text, text_has_one_reading, unknown_data_is_the_same,
    zone_text_breaks_no_rule, zone_text_or_fault,
};
pub use zone_canonical::laws::{
    canonical_octets_are_one, canonical_octets_tell_records_apart, case_is_not_in_canonical_octets,
};
pub use zone_core::laws::{
    blocked_record_fits_no_cutting, blocked_record_is_one, cut_or_blocked, full_cut_is_fewest,
    full_cut_is_one, made_query_is_read, one_query_fault, parts_fit_where_size_grows,
    query_asks_one_thing, query_breaks_no_rule, sum_of_sizes_grows, transfers_are_one,
    two_splits_are_one,
};
pub use zone_receive::laws::{at_most_one_of_three, one_of_three};
pub use zone_send::laws::{
    free_messages_are_no_fewer, hash_full_cut_is_fewest, message_octets_are_a_sum,
    near_records_have_the_same_canonical_octets, one_stream_or_one_blocked_record,
    plain_full_cut_is_fewest, received_is_sent_again, sent_again_is_the_same, sent_is_a_transfer,
    spelled_fronts_fit, spelled_is_a_transfer, spelled_is_sent_again,
    transfers_keep_canonical_octets, tree_full_cut_is_fewest, written_records_have_names,
    zones_can_be_sent,
};
