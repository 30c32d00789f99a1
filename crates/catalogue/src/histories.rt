//! What holds over whole histories of batches, and of whole contents, each law as the contract of a function that does
//! nothing when it runs. A crate that needs a law calls its function.

ghost use Rattle.catalogue.specs.ContentExamples.{SmallContentHasItsEdits};
ghost use Rattle.catalogue.specs.Contents.{ContentsAreMade};
ghost use Rattle.catalogue.specs.Histories.{AppsWereAdded, AudiencesAreTheLastSet, BatchesKeepOtherApps, BatchesKeepOtherReleases, CohortsWereAdded, DiffsWereAdded, FloorsAreTheLastSet, HistoriesAreValid, HistoriesGrow, OpenFlagsAreTheLastSet, PrefixesAreAccepted, ReleasesWereAdded, RollbackFlagsAreTheLastSet, SharesAreTheLastSet, StonesAreTheLastSet, TargetsAreTheLastSet, WithdrawalsAreTheLastSet};

/// States that an item is there exactly if some edit of the history added it.
pub fn additions()
    ensures apps { AppsWereAdded }
    ensures releases { ReleasesWereAdded }
    ensures diffs { DiffsWereAdded }
    ensures cohorts { CohortsWereAdded }
{}

/// States that a cohort's targets, share and flags are those of the last edit of the history that set
/// them, else their first values.
pub fn cohort_settings()
    ensures targets { TargetsAreTheLastSet }
    ensures shares { SharesAreTheLastSet }
    ensures rollback_flags { RollbackFlagsAreTheLastSet }
    ensures open_flags { OpenFlagsAreTheLastSet }
{}

/// States that a release's flags, audience and floor are those of the last edit of the history that set
/// them, else their first values.
pub fn release_settings()
    ensures stones { StonesAreTheLastSet }
    ensures withdrawals { WithdrawalsAreTheLastSet }
    ensures audiences { AudiencesAreTheLastSet }
    ensures floors { FloorsAreTheLastSet }
{}

/// States that a batch that is accepted after a history makes a longer history.
pub fn growth()
    ensures { HistoriesGrow }
{}

/// States that a prefix of an accepted history is accepted.
pub fn prefixes()
    ensures { PrefixesAreAccepted }
{}

/// States that a batch leaves the apps that none of its edits names as they are, with their indexes.
pub fn other_apps()
    ensures { BatchesKeepOtherApps }
{}

/// States that a batch leaves the releases and the differentials of an app as they are if none of its edits changes
/// those of that app.
pub fn other_releases()
    ensures { BatchesKeepOtherReleases }
{}

/// States that what a history leads to is valid.
pub fn validity()
    ensures { HistoriesAreValid }
{
    crate::version_laws::order();
    crate::version_laws::spellings();
    crate::version_laws::printing();
}

/// States that the edits of a valid content, in the order of a profile, are accepted from the empty
/// content on and make that content.
pub fn contents()
    ensures { ContentsAreMade }
{
    crate::version_laws::order();
    crate::version_laws::spellings();
}

/// Shows the edits of a small content, in their order.
pub fn small_content()
    ensures { SmallContentHasItsEdits }
{}
