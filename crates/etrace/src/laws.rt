//! The theorems: functions with empty bodies, whose contracts are theorems about the definitions that the other
//! contracts cite.

pub use auditing::{
    counts_add_up, framed_messages_are_taken, harts_are_received_alone, rows_add_up, skips_add_up,
    whole_decodes_again, whole_is_equal, whole_is_untouched,
};
pub use bench::turns_let_beginnings_through;
pub use captures::{
    hex_lines_become_the_capture, hex_lines_say_their_messages, lines_stream_the_capture,
    low_numbers_are_recovered,
};
pub use comparing::{
    all_harts_are_compared, decoding_stops_where_it_is_said, lists_agree_before_the_row,
    whole_is_decoded, whole_is_these_logs, whole_of_harts_is_decoded, whole_of_harts_is_these_logs,
};
pub use decoder::{
    closed_where_last_closes, first_packets_describe_a_beginning,
    more_packets_describe_a_longer_log, one_decoder_stands, one_log_is_described,
    passing_over_stands_for_nothing, walks_are_short,
};
pub use encoder::{logs_have_few_packets, packets_are_in_profile};
pub use explaining::texts_list_what_is_legal;
pub use frames::{all_harts_choose_every_span, known_messages_are_taken};
pub use funnel::{every_state_is_lawful, live_channel_is_the_machine};
pub use legalpath::{
    logs_split_and_join, reasons_name_illegal_rows, retirements_lead_to_one_place,
};
pub use listing::rows_are_read_back as listed_rows_are_read_back;
pub use losses::{stretches_are_whole, stretches_stand_apart};
pub use message::all_harts_select_every_message;
pub use parallel_decode::all_harts_are_decoded;
pub use retire::{
    long_read_is_in_range, long_written_is_read_back, plain_is_parted, read_is_in_range,
    written_is_plain, written_is_read_back,
};
pub use roundtrip::first_packets_settle_the_first_events;
pub use rvclass::{
    added_pieces_leave_the_others, cut_pieces_act_as_one, cut_pieces_have_the_instructions_of_one,
    cut_pieces_stay_legal, even_addresses_have_places, one_piece_is_an_image,
    pieces_are_refused_for_the_first_reason, pieces_overlap_at_an_address, the_bytes_decide,
    the_bytes_decide_the_instructions, the_order_of_adding_is_free,
};
pub use salvage_reports::{
    accepted_messages_are_taken, all_harts_are_treated, messages_of_logs_are_taken,
    salvaged_rows_are_read_back, taken_messages_have_their_effect,
    taken_messages_have_their_fields, totals_add_up, treated_rows_are_read_back,
    undamaged_captures_are_listed_alike,
};
pub use salvaging::{
    far_numbers_are_known, far_numbers_are_reported, harts_are_salvaged_in_one_way,
    harts_end_at_their_lowest_number, harts_end_where_no_stretch_comes_after, logs_are_salvaged,
    messages_are_counted_once, parts_are_what_is_done, treatments_are_counted,
    what_is_collected_is_salvaged,
};
