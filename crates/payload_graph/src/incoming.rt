//! The iterator over the payloads that lead to a release.

ghost use Rattle.std.specs.Prelude.{◌≡◌};
ghost use Rattle.std.specs.Iterator.{item_count, YieldsFirst};
ghost use Rattle.payload_graph.specs.Edges.{differs_into_left, edges_into_left, fulls_into_left};

use crate::door::Door;
use crate::edge::Edge;
use crate::edges::full;

// The full packages of a release, from those of some origins that its door opens from.
#[derive(Drop)]
struct FullsInto<'a> {
    door: Door,
    origins: &'a [Door],
}

impl<'a> Iterator for FullsInto<'a> {
    type Item = Edge;

    ghost next_gives = { YieldsFirst fulls_into_left };

    ghost remaining = { item_count fulls_into_left };

    fn next(&mut self) -> Option<Edge> {
        while let Some((origin, others)) = self.origins.split_first() {
            self.origins = others;
            if self.door.opens(origin.to) {
                return Some(full(origin.to, &self.door));
            }
        }
        None
    }
}

// Those of some differentials that lead to a release.
#[derive(Drop)]
struct DiffersInto<'a> {
    to: usize,
    differs: &'a [Edge],
}

impl<'a> Iterator for DiffersInto<'a> {
    type Item = Edge;

    ghost next_gives = { YieldsFirst differs_into_left };

    ghost remaining = { item_count differs_into_left };

    fn next(&mut self) -> Option<Edge> {
        while let Some((edge, others)) = self.differs.split_first() {
            self.differs = others;
            if self.to == edge.to {
                return Some(*edge);
            }
        }
        None
    }
}

/// The payloads that lead to a release: the full packages by ascending origin, then the differentials
/// by ascending origin.
#[derive(Drop)]
pub struct EdgesInto<'a> {
    below: FullsInto<'a>,
    above: FullsInto<'a>,
    differs: DiffersInto<'a>,
}

impl<'a> EdgesInto<'a> {
    pub(crate) fn new(
        door: Door,
        below: &'a [Door],
        above: &'a [Door],
        to: usize,
        differs: &'a [Edge],
    ) -> EdgesInto<'a>
        ensures { result ≡ record {
          below = record { door = door; origins = below.entry };
          above = record { door = door; origins = above.entry };
          differs = record { to = to; differs = differs.entry };
        } }
    {
        let below = FullsInto {
            door,
            origins: below,
        };
        let above = FullsInto {
            door,
            origins: above,
        };
        let differs = DiffersInto { to, differs };
        EdgesInto {
            below,
            above,
            differs,
        }
    }
}

impl<'a> Iterator for EdgesInto<'a> {
    type Item = Edge;

    ghost next_gives = { YieldsFirst edges_into_left };

    ghost remaining = { item_count edges_into_left };

    fn next(&mut self) -> Option<Edge> {
        if let Some(edge) = self.below.next() {
            return Some(edge);
        }
        if let Some(edge) = self.above.next() {
            return Some(edge);
        }
        self.differs.next()
    }
}
