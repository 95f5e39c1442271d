//! The laws that the JSON stands on, each as the contract of a function that does nothing.

ghost use Rattle.ubi_json.specs.Laws.{OneLine, TellAlike};

/// The printed line of a cause and its object say the same: the code, the name, each number under its word, the name of
/// the rule that is broken, and the side, if it is one of two images.
pub fn tell_alike()
    ensures { TellAlike }
{}

/// The text of any data is one line: no byte of it is below 0x20.
pub fn one_line()
    ensures { OneLine }
{}
