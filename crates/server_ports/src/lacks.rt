// The packages that a server says it lacks.

use crate::folders::SystemFolder;
use crate::notes::note;
use crate::setup::Setup;
use catalogue::{App, Edit};
use http_ports::Port;
use package_files::{Lacking, look_for, look_for_added};
use std::sync::Wait;
use systems::System;

// The most packages that are named.
const MAX_NAMED: u64 = 16;

// The packages of a folder that were looked for, and how many of them aren't there with their sizes.
#[derive(Drop)]
struct Look<'s, 'a, S, R, P> {
    setup: &'s Setup<'a, S, R>,
    folder: SystemFolder<'s, S, P>,
    lacking: u64,
}

impl<'s, 'a, S: System<P>, R: Wait + AllocGlobal, P: Port> Look<'s, 'a, S, R, P> {
    // Looks into the folder of a place.
    fn new(setup: &'s Setup<'a, S, R>) -> Look<'s, 'a, S, R, P> {
        let folder = SystemFolder::new(setup.system, setup.place.packages.as_str());
        Look {
            setup,
            folder,
            lacking: 0,
        }
    }

    // Counts a package, and says that it isn't there, if it is one of the first.
    fn take(&mut self, looked: Result<(), Lacking<'_>>) {
        let Err(lacking) = looked else {
            return;
        };
        if self.lacking < MAX_NAMED {
            if let Ok(said) = format!(in self.setup.rt.alloc(); "{lacking}") {
                note(self.setup, said.as_str());
            }
        }
        self.lacking = self.lacking.saturating_add(1);
    }

    // Looks for the packages of an app.
    fn look_in(&mut self, app: &App) {
        for release in app.releases.as_slice() {
            let looked = look_for(&self.folder, release.name.as_str(), release.size);
            self.take(looked);
        }
        for shared in app.diffs.as_slice() {
            let diff = shared.get();
            let looked = look_for(&self.folder, diff.name.as_str(), diff.size);
            self.take(looked);
        }
    }

    // Says how many there are that weren't named.
    fn end(self) {
        let more = self.lacking.saturating_sub(MAX_NAMED);
        if more == 0 {
            return;
        }
        if let Ok(said) = format!(in self.setup.rt.alloc(); "and {more} more packages") {
            note(self.setup, said.as_str());
        }
    }
}

/// Says which packages of these apps aren't there with their sizes: the first 16, and how many more.
pub(crate) fn note_apps<S: System<P>, R: Wait + AllocGlobal, P: Port>(
    setup: &Setup<'_, S, R>,
    apps: &[App],
) {
    let mut look = Look::<S, R, P>::new(setup);
    for app in apps {
        look.look_in(app);
    }
    look.end();
}

/// Says which packages that edits add aren't there with their sizes: the first 16, and how many more.
pub fn note_edits<S: System<P>, R: Wait + AllocGlobal, P: Port>(
    setup: &Setup<'_, S, R>,
    edits: &[Edit],
) {
    let mut look = Look::<S, R, P>::new(setup);
    for each in edits.chunks(1) {
        let looked = look_for_added(&look.folder, each);
        look.take(looked);
    }
    look.end();
}
