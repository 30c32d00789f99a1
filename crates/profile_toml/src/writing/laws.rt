//! What holds of written profiles, as contracts of functions that do nothing when they run.

ghost use Rattle.profile_toml.specs.WrittenLaws.{ProfilesAreWrittenInOneWay, ReadProfilesAreWrittenAgain};

/// States that a content with its mirrors is written in one way, and that a written profile has the same
/// bytes after it was read, applied and written again.
pub fn writing()
    ensures once { ProfilesAreWrittenInOneWay }
    ensures again { ReadProfilesAreWrittenAgain }
{}
