//! What holds of every profile and every fault, as contracts of functions that do nothing when they
//! run.

ghost use Rattle.profile_toml.specs.Laws.{FaultsOfProfilesAreOneLine, FaultsOfScriptsAreOneLine, ProfilesNameMirrors};

/// States that a profile that is read names one to four mirrors, each valid and no two of one name.
pub fn mirrors()
    ensures { ProfilesNameMirrors }
{}

// rule: A fault is one line
/// States that the fault of a profile or a script is printed as one line, whatever the document has.
pub fn faults()
    ensures profiles { FaultsOfProfilesAreOneLine }
    ensures scripts { FaultsOfScriptsAreOneLine }
{}
