//! What holds of all versions and strings, each law as the contract of a function.

ghost use Rattle.catalogue.specs.VersionLaws.{BelowIsIrreflexive, BelowIsTotal, BelowIsTransitive, LenientAgrees, PrintIsPlain, PrintReadsBack};

/// States that `is_below` orders versions: strictly, and any two that differ.
pub fn order()
    ensures irreflexive { BelowIsIrreflexive }
    ensures transitive { BelowIsTransitive }
    ensures total { BelowIsTotal }
{}

/// States that a client's string which a publisher might write counts as the same version.
pub fn spellings()
    ensures { LenientAgrees }
{}

/// States that what a version prints counts as the same version when a client sends it, and is a
/// publisher's string of the same version if the version has one.
pub fn printing()
    ensures lenient { PrintReadsBack }
    ensures plain { PrintIsPlain }
{}
