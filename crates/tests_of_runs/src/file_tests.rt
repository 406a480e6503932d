use crate::playing::play;
use tests_file_stories::{
    calls, checked, conversions, ended_checks, generated, names, new_files, projects,
    refused_conversions, refused_listings, reports, served, served_projects, summed, trees, turned,
    vfsold32,
};
use tests_story_player::FILES;

#[test]
fn a_flat_file_is_reported(rt: HostRuntime) {
    play(&rt, rt.alloc(), &[FILES, reports::SHOWN]);
}

#[test]
fn refusals_have_their_status_and_their_line(rt: HostRuntime) {
    play(&rt, rt.alloc(), &[FILES, reports::REFUSED]);
}

#[test]
fn each_failing_call_stops_the_report(rt: HostRuntime) {
    play(&rt, rt.alloc(), &[FILES, reports::FAILING]);
}

#[test]
fn a_tree_file_is_reported(rt: HostRuntime) {
    play(&rt, rt.alloc(), &[FILES, trees::REPORTED]);
}

#[test]
fn a_tree_file_is_refused_by_its_first_fault(rt: HostRuntime) {
    play(&rt, rt.alloc(), &[FILES, trees::REFUSED]);
}

#[test]
fn limits_are_set_in_tree_files(rt: HostRuntime) {
    play(&rt, rt.alloc(), &[FILES, trees::SET]);
}

#[test]
fn a_report_shows_names(rt: HostRuntime) {
    play(&rt, rt.alloc(), &[FILES, names::SHOWN]);
}

#[test]
fn a_name_stands_for_its_identifier(rt: HostRuntime) {
    play(&rt, rt.alloc(), &[FILES, names::WORDS]);
}

#[test]
fn a_file_of_names_is_refused_before_the_other_words(rt: HostRuntime) {
    play(&rt, rt.alloc(), &[FILES, names::REFUSED]);
}

#[test]
fn calls_of_the_store_have_their_order(rt: HostRuntime) {
    play(&rt, rt.alloc(), &[FILES, calls::ORDER]);
}

#[test]
fn a_damage_that_is_met_after_opening_ends_the_command(rt: HostRuntime) {
    play(&rt, rt.alloc(), &[FILES, turned::TURNED]);
}

#[test]
fn files_get_the_usage_of_listings(rt: HostRuntime) {
    play(&rt, rt.alloc(), &[FILES, checked::CHECKED]);
}

#[test]
fn listings_have_edges(rt: HostRuntime) {
    play(&rt, rt.alloc(), &[FILES, ended_checks::BOUNDS]);
}

#[test]
fn files_are_refused_and_calls_fail(rt: HostRuntime) {
    play(&rt, rt.alloc(), &[FILES, ended_checks::CALLS]);
}

#[test]
fn listings_make_new_files(rt: HostRuntime) {
    play(&rt, rt.alloc(), &[FILES, new_files::NEW_FILES]);
}

#[test]
fn listings_are_made(rt: HostRuntime) {
    play(&rt, rt.alloc(), &[generated::GENERATED]);
}

#[test]
fn wrong_lines_are_named(rt: HostRuntime) {
    play(&rt, rt.alloc(), &[FILES, refused_listings::LISTINGS]);
}

#[test]
fn listings_are_summed(rt: HostRuntime) {
    play(&rt, rt.alloc(), &[FILES, summed::SUMS]);
}

#[test]
fn files_are_converted_between_all_formats(rt: HostRuntime) {
    play(&rt, rt.alloc(), &[FILES, conversions::PAIRS]);
}

#[test]
fn conversions_have_edges(rt: HostRuntime) {
    play(&rt, rt.alloc(), &[FILES, conversions::ENDS]);
}

#[test]
fn the_first_value_without_room_is_told(rt: HostRuntime) {
    play(&rt, rt.alloc(), &[FILES, refused_conversions::FIRST]);
}

#[test]
fn conversions_are_refused_and_calls_fail(rt: HostRuntime) {
    play(&rt, rt.alloc(), &[FILES, refused_conversions::REFUSED]);
}

#[test]
fn listings_tell_of_projects(rt: HostRuntime) {
    play(&rt, rt.alloc(), &[FILES, projects::LISTED]);
}

#[test]
fn projects_have_names(rt: HostRuntime) {
    play(&rt, rt.alloc(), &[FILES, projects::NAMED]);
}

#[test]
fn files_of_each_kind_are_none_of_another_one(rt: HostRuntime) {
    play(&rt, rt.alloc(), &[FILES, projects::OPENED]);
}

#[test]
fn calls_for_projects_are_answered(rt: HostRuntime) {
    play(&rt, rt.alloc(), &[FILES, served_projects::SERVED]);
}

#[test]
fn datagrams_are_answered(rt: HostRuntime) {
    play(&rt, rt.alloc(), &[FILES, served::ANSWERED]);
}

#[test]
fn serving_ends_at_a_fault(rt: HostRuntime) {
    play(&rt, rt.alloc(), &[FILES, served::ENDED]);
}

#[test]
fn files_of_vfsold32_are_reported(rt: HostRuntime) {
    play(&rt, rt.alloc(), &[FILES, vfsold32::REPORTED]);
}

#[test]
fn files_of_vfsold32_get_the_usage_of_listings(rt: HostRuntime) {
    play(&rt, rt.alloc(), &[FILES, vfsold32::CHECKED]);
}
