//! What holds of every path, as contracts of functions that do nothing when they run.

ghost use Rattle.profile_toml.specs.TableLaws.{ElementsAreOneLine, KeysAreOneLine};

/// States that the path of a key is one line, whatever bytes the key has: it has no line feed and
/// no carriage return.
pub fn paths()
    ensures keys { KeysAreOneLine }
    ensures elements { ElementsAreOneLine }
{}
