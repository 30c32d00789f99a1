// The arguments of the command `graph`, as `clap` reads them.

ghost use Rattle.std.specs.Prelude.{◌≡◌, [], IfOk};
ghost use Rattle.clap.specs.Words.{FailsBy, found_of, rows_of};
ghost use Rattle.omaha_arguments.specs.GraphArguments.{graph_app, graph_in};
ghost use Rattle.omaha_arguments.specs.Options.{IsMade};
ghost use Rattle.omaha_arguments.specs.WalkArguments.{IsAskable};

use crate::command::{Command, Graph};
use crate::options::{Entry, Making, command_of, copy_strings, flag_in, optional_string};
use crate::rejections::out_of_memory;
use clap::{ArgMatches, Error};
use std::alloc::{AllocError, Global};

const GRAPH: &str = "Draws an app's releases, and the packages that lead its clients on.";

const COHORT: &str = "Draw the clients of one cohort [default: of all]";

const FROM: &str = "Draw the packages that clients of V get, up to the target [default: of all]";

const DOT: &str = "Print a graph for Graphviz' dot [default: an SVG image]";

const AFTER_GRAPH: &str =
    "Prints a picture of APP: its releases, the lowest first, and the packages that lead its clients to
their targets with the fewest bytes. A legend says what each shape and colour means:
  a circle is a release, a diamond a stepping stone, which no client may jump
  a withdrawn release is dashed, a target filled, with its cohorts in brackets; `held` is the target
  of the clients that a rollout hasn't reached
  a release has another colour if its clients are stuck: no packages lead them to their target
  an arrow is a package: a differential, a full package or a downgrade; a wider one has more bytes
An SVG image has no script and needs no other file: browsers and documents show it. In a browser
each release and each arrow says its package and bytes.

If the command fails, it prints one line on standard error.
  omaha: file F     F can't be read
  omaha: no track   F has no such app, or APP has no cohort C or no release of version V
  omaha: write      standard output failed
  omaha: memory     out of memory
If F is invalid, it prints the first fault, as `omaha check` does.

Exit status: 0 if the picture was printed, 1 if the command failed, 2 if the arguments are invalid.

Examples:
  omaha graph profile.toml editor > editor.svg
  omaha graph profile.toml editor --cohort stable --from 1.0 > stable.svg
  omaha graph profile.toml editor --dot | dot -Tpng > editor.png";

const ENTRIES: [Entry<'static>; 5] = [
    Entry::Wanted("F", "The profile"),
    Entry::Wanted("APP", "The app's name"),
    Entry::PlainOption("cohort", "C", COHORT),
    Entry::PlainOption("from", "V", FROM),
    Entry::Flag("dot", DOT),
];

pub(crate) fn graph_command<'a>(alloc: Global) -> Making<'a>
    ensures { IsMade graph_app result.made }
{
    command_of(alloc, "graph", GRAPH, AFTER_GRAPH, &ENTRIES)
}

// What is drawn, and how.
fn graph_of(alloc: Global, matches: &ArgMatches<'_>) -> Result<Graph, AllocError>
    ensures { IfOk result (λ graph. graph ≡ graph_in (rows_of (found_of matches.now))) }
{
    let (profile, app) = copy_strings(alloc, matches, "F", "APP")?;
    let cohort = optional_string(alloc, matches, "cohort")?;
    let from = optional_string(alloc, matches, "from")?;
    let dot = flag_in(matches, "dot");
    Ok(Graph {
        profile,
        app,
        cohort,
        from,
        dot,
    })
}

// rule: Arguments of a picture
/// Reads the arguments of `graph`.
pub(crate) fn read_graph(alloc: Global, matches: &ArgMatches<'_>) -> Result<Command, Error>
    ensures faults { FailsBy [] result }
    ensures command { IfOk result (λ command. command ≡ Command.Graph (graph_in (rows_of (found_of matches.now)))) }
    ensures named { IfOk result IsAskable }
{
    match graph_of(alloc, matches) {
        Ok(graph) => Ok(Command::Graph(graph)),
        Err(error) => Err(out_of_memory(error)),
    }
}
