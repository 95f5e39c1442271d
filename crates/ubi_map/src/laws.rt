//! The law that the page stands on, as the contract of a function that does nothing.

ghost use Rattle.ubi_map.specs.Laws.{StaysInside};

/// No data end the script element that they stand in: their text there has no `<`.
pub fn stays_inside()
    ensures { StaysInside }
{}
