//! A track as an operator names it.

use crate::track::Lane;
use values::Text;

/// The names of a track.
pub struct TrackNames {
    /// The app's identifier, in any case of ASCII letters.
    pub app: Text,
    /// The cohort's name.
    pub cohort: Text,
    /// The target or the held target.
    pub lane: Lane,
    /// Whether the clients allow a downgrade.
    pub rollback: bool,
}

// Written out, so that no caller proves again how each part is dropped.
impl Drop for TrackNames {
    fn drop(self) {
        let TrackNames {
            app: _,
            cohort: _,
            lane: _,
            rollback: _,
        } = self;
    }
}
