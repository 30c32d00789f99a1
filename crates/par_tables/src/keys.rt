//! The keys of the tracks of a cohort, in order.

ghost use Rattle.std.specs.Prelude.{◌≡◌, ◌++◌, IfOk, OnOk};
ghost use Rattle.par_tables.specs.Tracks.{cohort_keys, lane_keys};

use catalogue::Cohort;
use cohorts::{Lane, Pin};
use payload_graph::TrackKey;
use std::alloc::{AllocError, Global};

fn push_lane(
    keys: &mut Vec<TrackKey>,
    app: usize,
    index: usize,
    cohort: &Cohort,
    lane: Lane,
) -> Result<(), AllocError>
    ensures { OnOk result (keys.new.items ≡ keys.old.items ++ lane_keys app index cohort.now lane) }
{
    keys.push(TrackKey {
        app,
        cohort: index,
        lane,
        rollback: false,
        pin: Pin::Any,
    })?;
    if cohort.rollback {
        keys.push(TrackKey {
            app,
            cohort: index,
            lane,
            rollback: true,
            pin: Pin::Any,
        })?;
    }
    Ok(())
}

// rule: Order of tracks
/// The keys of the tracks of a cohort at an index of an app, with a target or without; their clients have no pin.
pub(crate) fn cohort_keys(
    alloc: Global,
    app: usize,
    index: usize,
    cohort: &Cohort,
) -> Result<Vec<TrackKey>, AllocError>
    ensures { IfOk result (λ keys. keys.items ≡ cohort_keys app index cohort.now) }
{
    let mut keys = Vec::new(alloc);
    push_lane(&mut keys, app, index, cohort, Lane::Target)?;
    push_lane(&mut keys, app, index, cohort, Lane::Held)?;
    Ok(keys)
}
