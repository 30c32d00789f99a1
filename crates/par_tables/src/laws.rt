//! What holds of the tables of all catalogues, each law as a clause of a function.

ghost use Rattle.par_tables.specs.Sources.{GraphsAreOfSources};
ghost use Rattle.par_tables.specs.Tables.{TablesAreOfTracks, TablesAreOne, TracksHaveTables};

/// States that each table is that of its key's track, and that each track with a target has one.
pub fn tracks()
    ensures tables { TablesAreOfTracks }
    ensures tracks { TracksHaveTables }
{}

// rule: Source of a graph
/// States that a track's graph is the same in two contents that have the same releases and differentials of its app, and
/// the same cohort but for its share and its open flag.
pub fn sources()
    ensures { GraphsAreOfSources }
{}

/// States that a catalogue has one list of tables, however it was made.
pub fn unique()
    ensures { TablesAreOne }
{
    price_cert::laws::unique();
}
