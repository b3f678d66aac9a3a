//! Lists of texts, compared through the bound.

use money_core::{Cause, Items, Same, Text};
use std::alloc::Global;
use std::process::Abort;

fn are_equal<T: Same>(x: &T, y: &T) -> bool {
    x.is_same(y)
}

fn list_of(alloc: Global, words: &[&str]) -> Result<Items<Text>, Cause> {
    let mut list = Items::empty(alloc);
    for word in words {
        let text = Text::of(alloc, *word)?;
        list.push(text)?;
    }
    Ok(list)
}

/// Asserts of each two lists whether they are equal.
fn assert_same(rt: &impl Abort, alloc: Global, rows: &[(&[&str], &[&str], bool)]) {
    for (words, others, want) in rows {
        let list = list_of(alloc, *words).expect(rt, "memory");
        let other = list_of(alloc, *others).expect(rt, "memory");
        assert_eq!(rt; are_equal(&list, &other), *want, "{words:?} and {others:?}");
    }
}

#[test]
fn lists_are_equal_where_their_texts_are_in_one_order(rt: HostRuntime) {
    let rows: [(&[&str], &[&str], bool); 7] = [
        (&[], &[], true),
        (&["assets", "€"], &["assets", "€"], true),
        (&["assets", "€"], &["€", "assets"], false),
        (&["assets"], &["assets", ""], false),
        (&["assets", ""], &["assets"], false),
        (&["assets"], &["Assets"], false),
        (&["assets"], &["asset"], false),
    ];
    assert_same(&rt, rt.alloc(), &rows);
}
