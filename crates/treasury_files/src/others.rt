//! What a database has beside the tables of a treasury, which standard error notes.

use crate::tables::{is_ours, push_name};
use money_core::Cause;
use sqlite_schema::names::same_name;
use sqlite_schema::schema::Schema;
use std::alloc::Global;
use terminal_text::{push_number, push_shown};

/// How the names begin that SQLite gives: of the indexes of keys, and of tables such as those of `ANALYZE`.
const OF_SQLITE: &[u8] = b"sqlite_";

/// The most names that the note has; of more, it says how many more there are.
const MOST: usize = 5;

/// What a database has beside the tables of a treasury: the first names, and how many there are.
#[derive(Drop)]
struct Others {
    names: Vec<u8>,
    count: usize,
}

/// Whether SQLite gave the name.
fn is_of_sqlite(name: &[u8]) -> bool {
    match name.get(..OF_SQLITE.len()) {
        Some(front) => same_name(front, OF_SQLITE),
        None => false,
    }
}

impl Others {
    /// Adds a name, unless SQLite gave it.
    fn add(&mut self, name: &[u8]) -> Result<(), Cause> {
        if is_of_sqlite(name) {
            return Ok(());
        }
        if self.count < MOST {
            push_name(name, &mut self.names)?;
        }
        self.count = self.count.saturating_add(1);
        Ok(())
    }

    /// Adds the tables that are not a treasury's.
    fn add_tables(&mut self, schema: &Schema) -> Result<(), Cause> {
        for table in schema.tables.as_slice() {
            if !is_ours(table.name.as_slice()) {
                self.add(table.name.as_slice())?;
            }
        }
        Ok(())
    }

    /// Adds the indexes that are not those of keys.
    fn add_indexes(&mut self, schema: &Schema) -> Result<(), Cause> {
        for index in schema.indexes.as_slice() {
            self.add(index.name.as_slice())?;
        }
        Ok(())
    }

    /// Adds the views and triggers, and the tables and indexes that are kept as they are.
    fn add_views(&mut self, schema: &Schema) -> Result<(), Cause> {
        for view in schema.views.as_slice() {
            self.add(view.name.as_slice())?;
        }
        Ok(())
    }
}

/// What a database has beside the tables of a treasury.
fn others_in(alloc: Global, schema: &Schema) -> Result<Others, Cause> {
    let mut others = Others {
        names: Vec::new(alloc),
        count: 0,
    };
    others.add_tables(schema)?;
    others.add_indexes(schema)?;
    others.add_views(schema)?;
    Ok(others)
}

/// Appends the note of what else a database has.
fn push_note(path: &str, others: &Others, out: &mut Vec<u8>) -> Result<(), Cause> {
    out.extend_from_slice(b"note: ")?;
    push_shown(path.as_bytes(), out)?;
    out.extend_from_slice(b" has more than the tables of a treasury: ")?;
    out.extend_from_slice(others.names.as_slice())?;
    if others.count > MOST {
        out.extend_from_slice(b" and ")?;
        push_number(others.count.saturating_sub(MOST), out)?;
        out.extend_from_slice(b" more")?;
    }
    out.extend_from_slice(b"; what is proved of files asks for these tables alone\n")?;
    Ok(())
}

/// The note of what a database has beside the tables of a treasury; nothing where there is nothing else, or no memory
/// for it.
pub fn note_of(alloc: Global, path: &str, schema: &Schema) -> Vec<u8> {
    let mut note = Vec::new(alloc);
    if let Ok(others) = others_in(alloc, schema) {
        if others.count > 0 {
            let _ = push_note(path, &others, &mut note);
        }
    }
    note
}

/// Says a note on standard error.
pub fn say_note(rt: &HostRuntime, note: &[u8]) {
    if let Ok(text) = str::from_utf8(note) {
        let _ = rt.eprint(text);
    }
}
