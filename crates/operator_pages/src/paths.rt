//! The page of a path.

ghost use Rattle.std.specs.Prelude.{◌≡◌, IfOk, option_map, string_bytes};
ghost use Rattle.operator_pages.specs.Paths.{kind_of, page_at, subject_at, body_of};

use crate::health::{health_string, status_string};
use crate::metrics::metrics_string;
use crate::page::page_string;
use crate::shown::Shown;
use http_desks::{Page, PageKind};
use std::alloc::{AllocError, Global};

/// What has a path.
#[derive(Clone, Copy)]
enum Subject {
    Health,
    Status,
    Metrics,
    Edition,
}

fn subject_at(path: &[u8]) -> Option<Subject>
    ensures { result ≡ subject_at path.now }
{
    if path == b"/healthz".as_slice() {
        Some(Subject::Health)
    } else if path == b"/status".as_slice() {
        Some(Subject::Status)
    } else if path == b"/metrics".as_slice() {
        Some(Subject::Metrics)
    } else if path == b"/".as_slice() {
        Some(Subject::Edition)
    } else {
        None
    }
}

fn kind_of(subject: Subject, ending: bool) -> PageKind
    ensures { result ≡ kind_of subject ending }
{
    match subject {
        Subject::Health => {
            if ending {
                PageKind::Ending
            } else {
                PageKind::Plain
            }
        }
        Subject::Status => PageKind::Plain,
        Subject::Metrics => PageKind::Metrics,
        Subject::Edition => PageKind::Html,
    }
}

fn body_of(alloc: Global, subject: Subject, shown: &Shown<'_>) -> Result<String, AllocError>
    ensures { IfOk result (λ text. string_bytes text ≡ body_of subject shown.now) }
{
    match subject {
        Subject::Health => health_string(alloc, shown.edition, shown.counts.lost, shown.ending),
        Subject::Status => status_string(alloc, shown),
        Subject::Metrics => metrics_string(alloc, shown),
        Subject::Edition => page_string(alloc, shown),
    }
}

// rule: Page of a path
/// Makes the page of a path: `/healthz`, `/status`, `/metrics`, or `/`; `None` if the path is another.
///
/// Out of memory is the only error.
pub fn page_at(alloc: Global, path: &[u8], shown: &Shown<'_>) -> Result<Option<Page>, AllocError>
    ensures { IfOk result (λ page. option_map (λ found. (found.kind, found.body.items)) page ≡ page_at path.now shown.now) }
{
    let Some(subject) = subject_at(path) else {
        return Ok(None);
    };
    let text = body_of(alloc, subject, shown)?;
    Ok(Some(Page {
        kind: kind_of(subject, shown.ending),
        body: text.into_bytes(),
    }))
}
