// What there is to say of the faults of profiles and scripts.

pub(crate) const PROFILES: [(&str, &str); 5] = [
    (
        "F1",
        "F1 NotToml
Found in: a profile or a script.
The file is not TOML.
Usual cause: A missing quote or bracket, a key twice, or another format.
Remedy: Check the file with any TOML tool, which names the line.
",
    ),
    (
        "F2",
        "F2 BadSchema
Found in: a profile or a script.
The file says neither `schema = 1` nor `schema = 2`.
Usual cause: The key is missing, is in quotes, or the file is for another version of the program.
Remedy: Begin the file with `schema = 2`.
",
    ),
    (
        "F3",
        "F3 BadEntry
Found in: a profile or a script.
The entry at that path is missing, unknown or of another type.
Usual cause: A misspelled key, a number in quotes, a key that the table must have, a `floor` in schema 1, or two cohorts
of an app with one name.
Remedy: Look at the path: `app[0].release[2].size` is the size of the third release of the first app.
",
    ),
    (
        "F4",
        "F4 BadMirror
Found in: a profile.
The mirror of that index, from 0, is invalid, or there are none or more than four.
Usual cause: A codebase that doesn't begin with `http://` or end with `/`, or a name used twice.
Remedy: Correct the name, codebase or budget of that mirror.
",
    ),
    (
        "F5",
        "F5 TooManyEdits
Found in: a script.
A script has more than 4096 edits.
Usual cause: A whole catalogue in one script.
Remedy: Split the script and publish its parts one after the other.
",
    ),
];
