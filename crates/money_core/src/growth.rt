//! Declared commodities stay, so that what was read under some is readable under more.

ghost use Rattle.money_core.specs.Growth.{StylesGrow};

/// A declaration only appends to the styles, and under the styles of before and any more, each text is read as before,
/// each amount and each price is printed as before, and each cost is what it was.
pub fn growth_law()
    ensures { StylesGrow }
{}
