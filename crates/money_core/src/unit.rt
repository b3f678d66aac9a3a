//! The commodities of a federation, by number.

/// A declared commodity, as its number in order of declaration, from 0.
#[derive(Clone, Copy, Debug, PartialEq, Eq, PartialOrd, Ord)]
pub struct Unit(pub u16);

/// What the declaration of a commodity answers.
#[derive(Clone, Copy, Debug, PartialEq, Eq)]
pub enum Declared {
    /// It is declared now, by the next number.
    New(Unit),
    /// It was declared before with an equal style.
    Same(Unit),
}
