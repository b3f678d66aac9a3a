//! Copies of styles.

use crate::fixture::{Fields, has_fields, style_of};
use money_core::{Copied, Mark};
use std::alloc::Global;
use std::process::Abort;

/// Asserts that the copy of a style has its fields.
fn assert_copied(rt: &impl Abort, alloc: Global, fields: Fields<'_>) {
    let copy = style_of(rt, alloc, fields).copy().expect(rt, "memory");
    assert!(rt; has_fields(&copy, fields), "{copy:?}");
}

#[test]
fn a_copied_style_has_the_same_fields(rt: HostRuntime) {
    let alloc = rt.alloc();
    assert_copied(&rt, alloc, ("EUR", false, true, Mark::Point, 2, true));
    assert_copied(&rt, alloc, ("$", true, false, Mark::Comma, 0, false));
    assert_copied(&rt, alloc, ("kg 2", true, true, Mark::Point, 6, false));
}
