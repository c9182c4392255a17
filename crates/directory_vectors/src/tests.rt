//! The tests. What doesn't hold is answered by none, and said in the text that each function is lent.

use crate::crashes::are_left;
use crate::doubts::are_all_there;
use crate::failing::are_kept;
use crate::leftovers::are_replaced;
use crate::opening::are_told;
use std::test::Fail;

/// Fails with what was said where something didn't hold.
fn held(holds: Option<()>, said: &String) -> Result<(), Fail> {
    match holds {
        Some(()) => Ok(()),
        None => Err(Fail::new(format_args!("{said}"))),
    }
}

#[test]
fn directories_have_what_no_session_shows(rt: HostRuntime) -> Result<(), Fail> {
    let mut said = String::new(rt.alloc());
    held(are_told(&rt, rt.alloc(), &mut said), &said)
}

#[test]
fn a_crash_leaves_what_was_acknowledged(rt: HostRuntime) -> Result<(), Fail> {
    let mut said = String::new(rt.alloc());
    held(are_left(&rt, rt.alloc(), &mut said), &said)
}

#[test]
fn one_call_of_the_disk_fails(rt: HostRuntime) -> Result<(), Fail> {
    let mut said = String::new(rt.alloc());
    held(are_kept(&rt, rt.alloc(), &mut said), &said)
}

#[test]
fn a_job_that_failed_loses_nothing(rt: HostRuntime) -> Result<(), Fail> {
    let mut said = String::new(rt.alloc());
    held(are_all_there(&rt, rt.alloc(), &mut said), &said)
}

#[test]
fn a_chunk_that_was_left_is_replaced(rt: HostRuntime) -> Result<(), Fail> {
    let mut said = String::new(rt.alloc());
    held(are_replaced(&rt, rt.alloc(), &mut said), &said)
}
