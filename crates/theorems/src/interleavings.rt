//! Interleavings: every order in which publishers, workers and operators can act on one update service.
//!
//! It has no code of its own. `laws::every_interleaving` states what holds of a service after every list of events:
//! each reply is that of one published catalogue, and no mirror grants more than its budget. Read `specs/Events.antt`
//! for what can happen, `specs/Jobs.antt` for what a worker keeps, `specs/Choices.antt` for what it chooses by prices,
//! `specs/InterleavingLaws.antt`, `specs/Entries.antt` and `specs/Requests.antt` for what holds, and
//! `specs/Restart.antt` for a service that starts from a dump. `specs/Ties.antt` reads the contracts of single calls in
//! events and helpers of them, `specs/Calls.antt` the calls of a worker's desk as lists of events, and
//! `specs/InterleavingServed.antt` all that a service did as one list.
//!
//! It says nothing of time: in that list only each worker's own replies are in their order. Nor does it say that
//! anything happens: that a worker comes on, or soon sees what is published. Nothing has a law for `Learn`.

pub mod laws;
