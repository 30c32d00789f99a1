//! The program `omaha`: an update server for the Omaha protocol 3.1, checks of profiles, and a client.
//!
//! Everything that it does is in `omaha_cli`, whose `run` it calls with the standard streams.

#![tactic(auto)]

use etcd_records::AnyStores;
use history::HistoryFiles;
use omaha_cli::{EndSigns, ReportingStores, Sockets, report_unreadable, run};
use std::process::ExitCode;
use std::rt::Env;
use std::{env, io};

// The arguments after the program's name.
fn arguments<R: Env + AllocGlobal>(rt: &R) -> io::Result<Vec<String>> {
    let arguments = env::args(rt)?.skip(1).collect(rt.alloc())?;
    Ok(arguments)
}

fn main(rt: HostRuntime) -> ExitCode {
    let mut input = rt.stdin();
    let mut output = rt.stdout();
    let mut errors = rt.stderr();
    let signs = EndSigns::new();
    let sockets = Sockets {
        rt: &rt,
        signs: &signs,
    };
    let stores = ReportingStores {
        rt: &rt,
        stores: AnyStores {
            rt: &rt,
            files: HistoryFiles { rt: &rt },
        },
    };
    ExitCode::from(match arguments(&rt) {
        Ok(arguments) => run(
            &rt,
            &sockets,
            &stores,
            &arguments,
            &mut input,
            &mut output,
            &mut errors,
        ),
        Err(error) => report_unreadable(&error, &mut errors),
    })
}
