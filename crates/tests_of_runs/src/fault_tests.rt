use crate::playing::{QuotaCli, play};
use std::alloc::{AllocError, Global};
use std::process::Abort;
use tests_edit_stories::together;
use tests_fault_stories::damages::{COMMANDS, DAMAGED, DamageRow};
use tests_fault_stories::{datagrams, ends, failing_together, stops, sweeps, vfsold32};
use tests_story_player::{FILES, failure_of};

#[test]
fn each_call_of_each_object_fails_once(rt: HostRuntime) {
    play(&rt, rt.alloc(), &[FILES, sweeps::SWEPT]);
}

#[test]
fn the_first_call_that_writes_fails(rt: HostRuntime) {
    play(&rt, rt.alloc(), &[FILES, ends::ENDED]);
}

#[test]
fn datagrams_are_cut_and_too_long(rt: HostRuntime) {
    play(&rt, rt.alloc(), &[FILES, datagrams::REFUSED]);
}

#[test]
fn a_failing_call_leaves_none_of_the_lines_or_all(rt: HostRuntime) {
    play(
        &rt,
        rt.alloc(),
        &[FILES, together::FILES_OF_LINES, failing_together::FAILING],
    );
}

#[test]
fn a_stop_leaves_none_of_the_lines_or_all(rt: HostRuntime) {
    play(
        &rt,
        rt.alloc(),
        &[FILES, together::FILES_OF_LINES, failing_together::STOPPED],
    );
}

#[test]
fn a_stop_leaves_the_old_tree_file_or_the_changed_one(rt: HostRuntime) {
    play(
        &rt,
        rt.alloc(),
        &[FILES, stops::STOPPED_FILES, stops::STOPPED_TREES],
    );
}

#[test]
fn a_stop_leaves_the_old_file_of_vfsv0_or_the_changed_one(rt: HostRuntime) {
    play(
        &rt,
        rt.alloc(),
        &[FILES, stops::STOPPED_FILES, stops::STOPPED_TREES_0],
    );
}

#[test]
fn a_stop_leaves_the_old_flat_file_or_the_changed_one(rt: HostRuntime) {
    play(
        &rt,
        rt.alloc(),
        &[FILES, stops::STOPPED_FILES, stops::STOPPED_FLAT_FILES],
    );
}

#[test]
fn each_call_of_a_change_of_vfsold32_fails_once(rt: HostRuntime) {
    play(
        &rt,
        rt.alloc(),
        &[FILES, vfsold32::FILES_OF_32, vfsold32::SWEPT],
    );
}

#[test]
fn a_stop_leaves_the_old_file_of_vfsold32_or_the_changed_one(rt: HostRuntime) {
    play(
        &rt,
        rt.alloc(),
        &[FILES, vfsold32::FILES_OF_32, vfsold32::STOPPED],
    );
}

/// A story in which a command names a damage of the file that these lines gather.
fn story_of(alloc: Global, lines: &str, command: &str, damage: &str) -> Result<String, AllocError> {
    format!(in alloc;
        "= {command}\n{lines}\nfile q\nrun {command}\nstatus 3\n! quota: q: damaged: {damage}\n"
    )
}

/// Whether a command names this damage of the file that these lines gather.
fn is_named(alloc: Global, lines: &str, command: &str, damage: &str) -> bool {
    match story_of(alloc, lines, command, damage) {
        Ok(story) => matches!(
            failure_of(&QuotaCli, alloc, &[FILES, story.as_str()]),
            Ok(None)
        ),
        Err(_) => false,
    }
}

/// Whether a command names one of the damages of a row.
fn is_one_named(alloc: Global, row: DamageRow, command: &str) -> bool {
    let mut is_one = false;
    for damage in row.2.split('|') {
        is_one = is_one || is_named(alloc, row.1, command, damage);
    }
    is_one
}

fn expect_damages_named(rt: &impl Abort, alloc: Global, rows: &[DamageRow], command: &str) {
    for row in rows {
        assert!(rt; is_one_named(alloc, *row, command), "{}: {command}", row.0);
    }
}

fn expect_all_to_name(rt: &impl Abort, alloc: Global, commands: &[&str]) {
    for command in commands {
        expect_damages_named(rt, alloc, DAMAGED, command);
    }
}

#[test]
fn each_command_names_a_damage_of_the_file(rt: HostRuntime) {
    expect_all_to_name(&rt, rt.alloc(), COMMANDS);
}
