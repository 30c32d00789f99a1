//! Theorems: what a client gets that takes each offer and asks again, and what a service does in every order of events.
//!
//! It has no code of its own. `laws::walk` states that a client which follows the replies of a catalogue that stays as
//! it is comes to its target, for the least sum of bytes in all, and `laws::statuses` what the status of an update
//! check says. Both are about the replies of `replies`, as a client sees them. `laws::served_walks` states that a walk
//! of `update_client`, whose posts a server of one catalogue replied to, is such a walk: as many steps as offers, and
//! their bytes.
//!
//! Read `specs/Asks.antt` for the reply to an ask and the next ask, `specs/Walks.antt` for walks, `specs/Statuses.antt`
//! for statuses and `specs/Served.antt` for the replies of a server of one catalogue; `specs/Laws.antt` and
//! `specs/ServedLaws.antt` have what holds of them.
//!
//! `interleavings` states what holds in every order in which publishers, workers and operators can act on one service.
//!
//! A law of walks says nothing of a catalogue that changes on the way, nor of a walk that ends with an error.

#![tactic(auto)]

pub mod interleavings;
pub mod laws;
