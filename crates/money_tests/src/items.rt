//! Lists and texts, through the bound that the records of every crate use.

use money_core::{Cause, Copied, Items, Text};
use std::alloc::Global;
use std::process::Abort;

/// An equal value, through the bound.
fn copied<T: Copied>(item: &T) -> Result<T, Cause> {
    item.copy()
}

/// A list of the texts.
fn list_of(rt: &impl Abort, alloc: Global, words: &[&str]) -> Items<Text> {
    let mut list = Items::empty(alloc);
    for word in words {
        let text = Text::of(alloc, *word).expect(rt, "memory");
        list.push(text).expect(rt, "memory");
    }
    list
}

/// Asserts that a text holds the word, and its copy, and one of a string.
fn assert_text(rt: &impl Abort, alloc: Global, word: &str) {
    let text = Text::of(alloc, word).expect(rt, "memory");
    let copy = copied(&text).expect(rt, "memory");
    assert_eq!(rt; copy.as_str(), word);
    copy.is_text();
    let string = String::from_str(alloc, word).expect(rt, "memory");
    assert_eq!(rt; Text::from_string(string).as_str(), word);
}

/// Asserts that the texts are the words.
fn assert_words(rt: &impl Abort, texts: &[Text], words: &[&str]) {
    assert_eq!(rt; texts.len(), words.len());
    for (text, word) in texts.iter().zip(words) {
        assert_eq!(rt; text.as_str(), *word);
    }
}

#[test]
fn a_copy_holds_equal_items_in_order(rt: HostRuntime) {
    let alloc = rt.alloc();
    let words = ["assets", "", "€", "assets"];
    for word in words {
        assert_text(&rt, alloc, word);
    }
    let list = list_of(&rt, alloc, &words);
    let copy = copied(&list).expect(&rt, "memory");
    assert_words(&rt, list.items(), &words);
    assert_words(&rt, copy.items(), &words);
    assert_words(&rt, copy.into_vec().as_slice(), &words);
}
