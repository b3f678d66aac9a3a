//! What rows spell, before it is judged.

use crate::record::Record;
use crate::transfer::Transfer;
use money_core::{Day, Items, Styles, Text};
use std::marker::Model;

/// A branch as its rows spell it.
#[derive(Debug, Drop)]
pub struct DraftBranch {
    pub name: Text,
    /// The day through which it is locked, if it is.
    pub locked: Option<Day>,
    /// In order of entry.
    pub records: Items<Record>,
}

impl Model for DraftBranch {
    ghost use Rattle.treasury_state.specs.Federation.{Branch};

    ghost Value = { Branch };

    ghost view = { λ b. record { name = b.name; locked = b.locked; records = b.records } };
}

/// A federation as its rows spell it, which may be no good state.
#[derive(Drop)]
pub struct Draft {
    pub styles: Styles,
    pub branches: Items<DraftBranch>,
    pub transfers: Items<Transfer>,
}

impl Model for Draft {
    ghost use Rattle.treasury_state.specs.Federation.{Federation};

    ghost Value = { Federation };

    ghost view = { λ d. record { styles = d.styles; branches = d.branches; transfers = d.transfers } };
}
