//! The laws, each called once: a call runs as nothing.

use bin_tape::laws as tapes;
use char_pack::laws as packing;
use os8_dir::laws as directories;
use os8_files::laws as files;
use pal_asm::laws as words;
use pal_lex::laws as statements;
use volume_image::{image_round_trip, one_call_fails};

#[test]
fn laws_of_sources() {
    tapes::one_reading();
    tapes::longer_tape();
    tapes::no_fault();
    tapes::one_fault();
    tapes::first_closing();
    tapes::handed_words();
    tapes::written_tape();
    packing::packed_bytes();
    packing::packed_frames();
    packing::joined_frames();
    packing::joined_text();
    packing::stored_text();
    statements::spans();
    statements::whole_statement();
    statements::text_grows();
    statements::statements_stay();
    statements::dollar_ends_source();
    statements::fault_stays();
    statements::faults_are_of_statements();
    statements::pause_is_bad();
    statements::pause_joins();
    statements::join_goes_on();
    statements::byte_goes_on();
    statements::source_ends_join();
    statements::source_spans();
    statements::whole_source_statement();
    statements::runs_are_maximal();
    statements::runs_end();
    words::fixed_names_keep_their_values();
    words::first_fault_stays();
    words::word_fault_stays();
    words::no_word_is_told();
    words::has_words();
    words::lexical_fault_is_told();
    words::no_lexical_fault();
    words::statements_stay();
    words::no_fault_before();
    words::first_statements_tell();
    words::first_words_tell();
    words::no_end_is_told();
}

#[test]
fn laws_of_volumes() {
    image_round_trip();
    one_call_fails();
    directories::sound_or_fault();
    directories::faults_of_words();
    directories::sound_directory();
    directories::read_back();
    directories::directory_blocks();
    directories::files_found();
    directories::files_made();
    directories::name_order();
    directories::directory_numbers();
    directories::files_inside();
    directories::file_removed();
    directories::file_placed();
    directories::file_moved_down();
    directories::lowest_file();
    directories::rooms();
    directories::entry_counts();
    directories::new_volumes();
    directories::unsound_volumes();
    files::held_files();
    files::held_blocks();
    files::kept_holds();
    files::released_hold();
    files::counted_holds();
    files::file_places();
    files::block_reads();
    files::whole_files();
    files::files_above();
    files::failed_reads();
    files::failed_writes();
    files::stopped_calls();
}
