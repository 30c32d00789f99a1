//! The releases from which full packages lead to the target.

ghost use Rattle.std.specs.Prelude.{◌≡◌, ◌+◌, ◌<◌, IfOk, length};
ghost use Rattle.std.specs.List.{list_any};
ghost use Rattle.payload_graph.specs.Net.{to_stone, window};
ghost use Rattle.reviews.specs.Routes.{flag_at, leads_to_flag, net_of_roads, AreRoads, AreRouted};

use payload_graph::Door;
use std::alloc::{AllocError, Global};

/// The full packages of a track, by the releases that they lead to.
pub(crate) struct Roads {
    /// The index of the target.
    pub(crate) target: usize,
    /// Whether they lead down from above the target.
    pub(crate) rollback: bool,
    /// The releases as destinations, in order.
    pub(crate) doors: Vec<Door>,
}

// Written out, so that no caller proves again how each part is dropped.
impl Drop for Roads {
    fn drop(self) {
        let Roads {
            target: _,
            rollback: _,
            doors: _,
        } = self;
    }
}

/// The flag at an index, false if there is none.
pub(crate) fn flag_at(flags: &[bool], release: usize) -> bool
    ensures { result ≡ flag_at flags.now release }
{
    match flags.get(release) {
        Some(flag) => *flag,
        None => false,
    }
}

fn leads_to_flag(flags: &[bool], from: usize, door: &Door) -> bool
    ensures { result ≡ leads_to_flag flags.now from door.now }
{
    door.opens(from) && flag_at(flags, door.to)
}

// Whether a door up to the first stone leads to a flagged release.
fn leads_up(flags: &[bool], from: usize, doors: &[Door]) -> bool
    ensures { result ≡ list_any (leads_to_flag flags.now from) (to_stone doors.now) }
{
    for door in doors {
        if leads_to_flag(flags, from, door) {
            return true;
        }
        if door.stone {
            return false;
        }
    }
    false
}

// Whether a door leads to a flagged release.
fn leads_down(flags: &[bool], from: usize, doors: &[Door]) -> bool
    ensures { result ≡ list_any (leads_to_flag flags.now from) doors.now }
{
    doors.iter().any(|door| leads_to_flag(flags, from, door))
}

impl Roads {
    // Whether a full package leads from a release to a flagged one.
    fn leads(&self, flags: &[bool], from: usize) -> bool
        requires roads { AreRoads self.now }
        requires there { from < length self.now.doors.items }
        ensures { result ≡ list_any (leads_to_flag flags.now from) (window (net_of_roads self.now) from) }
    {
        let doors = self.doors.as_slice();
        if from <= self.target {
            leads_up(flags, from, &doors[from + 1..self.target + 1])
        } else if self.rollback {
            leads_down(flags, from, &doors[..from])
        } else {
            false
        }
    }

    // Flags the releases below the target, from the target down.
    fn flag_below(&self, flags: &mut [bool])
        requires roads { AreRoads self.now }
        requires sized { length flags.old ≡ length self.now.doors.items }
        requires target { AreRouted (net_of_roads self.now) flags.old self.now.target (self.now.target + 1) }
        ensures { AreRouted (net_of_roads self.now) flags.new 0 (self.now.target + 1) }
    {
        payload_graph::laws::nearer();
        for from in (0..self.target).rev() {
            flags[from] = self.leads(flags, from);
        }
    }

    // Flags the releases above the target, upward.
    fn flag_above(&self, flags: &mut [bool])
        requires roads { AreRoads self.now }
        requires sized { length flags.old ≡ length self.now.doors.items }
        requires below { AreRouted (net_of_roads self.now) flags.old 0 (self.now.target + 1) }
        ensures { AreRouted (net_of_roads self.now) flags.new 0 (length self.now.doors.items) }
    {
        payload_graph::laws::nearer();
        for from in self.target + 1..self.doors.len() {
            flags[from] = self.leads(flags, from);
        }
    }

    /// Flags the releases from which full packages lead to the target.
    pub(crate) fn flags(&self, alloc: Global) -> Result<Vec<bool>, AllocError>
        requires roads { AreRoads self.now }
        ensures sized { IfOk result (λ flags. length flags.items ≡ length self.now.doors.items) }
        ensures routed { IfOk result (λ flags. AreRouted (net_of_roads self.now) flags.items 0 (length self.now.doors.items)) }
    {
        let mut flags = vec![in alloc; false; self.doors.len()]?;
        flags[self.target] = true;
        self.flag_below(flags.as_mut_slice());
        self.flag_above(flags.as_mut_slice());
        Ok(flags)
    }
}
