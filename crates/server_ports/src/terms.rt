// What the workers' ports of a server serve by.

ghost use Rattle.std.specs.Prelude.{◌≡◌, ◌<◌, All, IfOk, length};
ghost use Rattle.server_ports.specs.Opening.{AreClientTerms, client_terms, clients_listener, portion_at};

use crate::ending::CLIENTS;
use crate::place::Place;
use http_ports::Terms;
use std::alloc::{AllocError, Global};
use worker_threads::portion_of;

// rule: Portion of a worker
// How many sessions a worker serves.
fn portion_at(place: &Place, worker: usize) -> Option<u64>
    requires { worker < place.now.workers }
    ensures { result ≡ portion_at place.now.sessions place.now.workers worker }
{
    match place.sessions {
        Some(sessions) => Some(portion_of(worker as u64, place.workers as u64, sessions)),
        None => None,
    }
}

// What a worker's port serves by, with so many connections at once.
fn terms_of(place: &Place, capacity: usize, worker: usize) -> Terms
    requires { worker < place.now.workers }
    ensures { result ≡ client_terms place.now capacity worker }
{
    Terms {
        listener: CLIENTS,
        capacity,
        limit: portion_at(place, worker).unwrap_or(u64::MAX),
        message: place.seconds,
        idle: place.idle,
    }
}

/// What the workers' ports serve by, with so many connections at once each.
pub(crate) fn all_terms(
    alloc: Global,
    place: &Place,
    capacity: usize,
) -> Result<Vec<Terms>, AllocError>
    ensures many { IfOk result (λ terms. length terms.items ≡ place.now.workers) }
    ensures terms { IfOk result (λ terms. AreClientTerms place.now capacity terms.items) }
    ensures listener { IfOk result (λ terms. All (λ t. t.listener ≡ clients_listener) terms.items) }
{
    let mut terms = Vec::new(alloc);
    for worker in 0..place.workers {
        terms.push(terms_of(place, capacity, worker))?;
    }
    Ok(terms)
}
