use crate::playing::play;
use tests_edit_stories::{
    applied, batches, edits, ended_batches, forms, limits, projects, refused_bounds, refused_forms,
    refused_lines, together, together_bounds, vfsold32,
};
use tests_story_player::FILES;

#[test]
fn limits_are_set(rt: HostRuntime) {
    play(&rt, rt.alloc(), &[FILES, limits::SET]);
}

#[test]
fn the_first_refused_step_ends_the_command(rt: HostRuntime) {
    play(&rt, rt.alloc(), &[FILES, limits::REFUSED]);
}

#[test]
fn each_failing_call_leaves_the_old_file_or_the_changed_one(rt: HostRuntime) {
    play(&rt, rt.alloc(), &[FILES, limits::FAILING]);
}

#[test]
fn limits_are_copied(rt: HostRuntime) {
    play(&rt, rt.alloc(), &[FILES, edits::COPIED]);
}

#[test]
fn periods_are_set(rt: HostRuntime) {
    play(&rt, rt.alloc(), &[FILES, edits::PERIODS]);
}

#[test]
fn times_are_set(rt: HostRuntime) {
    play(&rt, rt.alloc(), &[FILES, edits::TIMES]);
}

#[test]
fn an_edit_is_refused_by_its_first_fault(rt: HostRuntime) {
    play(&rt, rt.alloc(), &[FILES, edits::REFUSED]);
}

#[test]
fn files_of_projects_are_edited(rt: HostRuntime) {
    play(&rt, rt.alloc(), &[FILES, projects::EDITED]);
}

#[test]
fn edits_of_projects_are_refused(rt: HostRuntime) {
    play(&rt, rt.alloc(), &[FILES, projects::REFUSED]);
}

#[test]
fn a_form_is_printed_or_refused(rt: HostRuntime) {
    play(&rt, rt.alloc(), &[FILES, forms::PRINTED]);
}

#[test]
fn forms_set_limits(rt: HostRuntime) {
    play(&rt, rt.alloc(), &[FILES, applied::FORM, applied::APPLIED]);
}

#[test]
fn lines_set_limits(rt: HostRuntime) {
    play(&rt, rt.alloc(), &[FILES, batches::BATCHES]);
}

#[test]
fn lines_have_edges_and_calls_fail(rt: HostRuntime) {
    play(&rt, rt.alloc(), &[FILES, ended_batches::EDGES]);
}

#[test]
fn lines_have_no_room_and_files_are_refused(rt: HostRuntime) {
    play(&rt, rt.alloc(), &[FILES, ended_batches::ROOM]);
}

#[test]
fn forms_are_refused(rt: HostRuntime) {
    play(
        &rt,
        rt.alloc(),
        &[FILES, applied::FORM, refused_forms::REFUSED_FORMS],
    );
}

#[test]
fn the_lines_before_one_at_fault_stay(rt: HostRuntime) {
    play(&rt, rt.alloc(), &[FILES, refused_lines::REFUSED_LINES]);
}

#[test]
fn lines_made_together_leave_what_they_leave_in_place(rt: HostRuntime) {
    play(
        &rt,
        rt.alloc(),
        &[FILES, together::FILES_OF_LINES, together::BOTH_WAYS],
    );
}

#[test]
fn lines_before_a_refused_one_are_made_both_ways(rt: HostRuntime) {
    play(
        &rt,
        rt.alloc(),
        &[FILES, together::FILES_OF_LINES, together::REFUSED_BOTH_WAYS],
    );
}

#[test]
fn lines_before_a_refused_one_are_made_together_where_the_file_is_small(rt: HostRuntime) {
    play(
        &rt,
        rt.alloc(),
        &[
            FILES,
            together::FILES_OF_LINES,
            refused_bounds::REFUSED_BOUNDS,
        ],
    );
}

#[test]
fn lines_are_made_together_where_the_file_is_small(rt: HostRuntime) {
    play(
        &rt,
        rt.alloc(),
        &[FILES, together::FILES_OF_LINES, together_bounds::BOUNDS],
    );
}

#[test]
fn limits_are_set_in_files_of_vfsold32(rt: HostRuntime) {
    play(&rt, rt.alloc(), &[FILES, vfsold32::SET]);
}

#[test]
fn times_of_vfsold32_have_32_bits(rt: HostRuntime) {
    play(&rt, rt.alloc(), &[FILES, vfsold32::TIMES]);
}

#[test]
fn lines_set_limits_in_files_of_vfsold32(rt: HostRuntime) {
    play(&rt, rt.alloc(), &[FILES, vfsold32::BATCHES]);
}
