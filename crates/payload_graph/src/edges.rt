//! The iterator over the payloads that leave a release.

ghost use Rattle.std.specs.Prelude.{◌≡◌};
ghost use Rattle.std.specs.Iterator.{item_count, YieldsFirst};
ghost use Rattle.payload_graph.specs.Edges.{edges_left, fulls_left};
ghost use Rattle.payload_graph.specs.Net.{full};

use crate::door::Door;
use crate::edge::{Edge, Kind};

/// The full package that leads from a release through a door.
pub(crate) fn full(from: usize, door: &Door) -> Edge
    ensures { result ≡ full from door.now }
{
    Edge {
        from,
        to: door.to,
        kind: Kind::Full,
        bytes: door.bytes,
    }
}

/// The full packages that leave a release, by ascending destination.
#[derive(Drop)]
pub struct Fulls<'a> {
    from: usize,
    doors: &'a [Door],
}

impl<'a> Fulls<'a> {
    pub(crate) fn new(from: usize, doors: &'a [Door]) -> Fulls<'a>
        ensures { result ≡ record { from = from; doors = doors.entry } }
    {
        Fulls { from, doors }
    }
}

impl<'a> Iterator for Fulls<'a> {
    type Item = Edge;

    ghost next_gives = { YieldsFirst fulls_left };

    ghost remaining = { item_count fulls_left };

    fn next(&mut self) -> Option<Edge> {
        while let Some((door, others)) = self.doors.split_first() {
            self.doors = others;
            if door.opens(self.from) {
                return Some(full(self.from, door));
            }
        }
        None
    }
}

/// The payloads that leave a release: the full packages by ascending destination, then the
/// differentials by ascending destination.
#[derive(Drop)]
pub struct Edges<'a> {
    fulls: Fulls<'a>,
    differs: &'a [Edge],
}

impl<'a> Edges<'a> {
    pub(crate) fn new(fulls: Fulls<'a>, differs: &'a [Edge]) -> Edges<'a>
        ensures { result ≡ record { fulls = fulls.entry; differs = differs.entry } }
    {
        Edges { fulls, differs }
    }
}

impl<'a> Iterator for Edges<'a> {
    type Item = Edge;

    ghost next_gives = { YieldsFirst edges_left };

    ghost remaining = { item_count edges_left };

    fn next(&mut self) -> Option<Edge> {
        if let Some(edge) = self.fulls.next() {
            return Some(edge);
        }
        let (edge, others) = self.differs.split_first()?;
        self.differs = others;
        Some(*edge)
    }
}
