// What there is to say of the faults of edits.

pub(crate) const EDITS: [(&str, &str); 17] = [
    (
        "C1",
        "C1 UnknownApp
Found in: an edit of a profile or a script.
An edit names an app that isn't there when the edit's turn comes.
Usual cause: A typing mistake in `app`, or an edit before the one that adds the app.
Remedy: Correct the identifier (its case makes no difference), or move the edit after `add_app`.
",
    ),
    (
        "C2",
        "C2 AppExists
Found in: an edit of a profile or a script.
An app of that identifier was added before.
Usual cause: Two apps whose identifiers differ at most in case.
Remedy: Join the two tables `[[app]]`, or give one of them another `id`.
",
    ),
    (
        "C3",
        "C3 BadAppId
Found in: an edit of a profile or a script.
An app's identifier is not 1 to 256 bytes from `!` to `~`.
Usual cause: A space, a letter outside ASCII, or an empty `id`.
Remedy: Choose an identifier of visible ASCII characters without spaces.
",
    ),
    (
        "C4",
        "C4 BadVersion
Found in: an edit of a profile or a script.
A version is not one to four decimal numbers with dots, each below 2^32.
Usual cause: A leading zero (`1.02`), a suffix (`1.0-beta`), or a leading `v`.
Remedy: Write the version as `1.2.3.4`, with at most four numbers and no leading zeros.
",
    ),
    (
        "C5",
        "C5 ReleaseExists
Found in: an edit of a profile or a script.
The app has a release of that version already.
Usual cause: The same release twice, or `1.0` and `1.0.0`, which are one version.
Remedy: Leave one of the two out, or raise its version.
",
    ),
    (
        "C6",
        "C6 HashTaken
Found in: an edit of a profile or a script.
Another release of the app has a full package with that SHA-256.
Usual cause: One package under two versions: a client's place is found by its hash, so it must be unique.
Remedy: Build the package anew for the new version, or leave one of the releases out; a published one stays.
",
    ),
    (
        "C7",
        "C7 BadHash
Found in: an edit of a profile or a script.
A `sha256` is not 64 lower-case hexadecimal digits.
Usual cause: Upper-case digits, a digest of another kind, or characters around it.
Remedy: Use what `sha256sum FILE` prints before the name.
",
    ),
    (
        "C8",
        "C8 BadSize
Found in: an edit of a profile or a script.
A package's size is not 1 to 1099511627776 bytes.
Usual cause: A size of 0, or one in another unit than bytes.
Remedy: Use what `stat -c %s FILE` prints.
",
    ),
    (
        "C9",
        "C9 BadName
Found in: an edit of a profile or a script.
A package or cohort name has another form than it must.
Usual cause: A slash or a space in a package's name, or a capital in a cohort's.
Remedy: Packages: 1 to 128 of A-Z a-z 0-9 . _ - and no leading dot. Cohorts: 1 to 32 of a-z 0-9 -.
",
    ),
    (
        "C10",
        "C10 NameTaken
Found in: an edit of a profile or a script.
Another package of the catalogue has that name.
Usual cause: One file name for two packages, perhaps of two apps.
Remedy: Give each package a name of its own, for example with the app and the version in it.
",
    ),
    (
        "C11",
        "C11 UnknownRelease
Found in: an edit of a profile or a script.
An edit names a version that the app has no release of.
Usual cause: A misspelled version, or a target, a held target or a differential before the edit that adds the release.
Remedy: Add the release first, or name one that is there: `omaha dump --to ADDR` lists them.
",
    ),
    (
        "C12",
        "C12 DiffExists
Found in: an edit of a profile or a script.
The app has a differential between those two releases already.
Usual cause: The same pair twice.
Remedy: Leave one of the two out.
",
    ),
    (
        "C13",
        "C13 DiffBackward
Found in: an edit of a profile or a script.
A differential doesn't lead to a higher version.
Usual cause: `from` and `to` are exchanged, or equal.
Remedy: Exchange them. Clients are downgraded by full packages alone.
",
    ),
    (
        "C14",
        "C14 UnknownCohort
Found in: an edit of a profile or a script.
An edit names a cohort that the app doesn't have.
Usual cause: A typing mistake in an `audience` or in `cohort`, or a cohort that is added later.
Remedy: Correct the name, or add the cohort before the edit.
",
    ),
    (
        "C15",
        "C15 CohortExists
Found in: an edit of a profile or a script.
The app has a cohort of that name already.
Usual cause: A cohort twice; the default cohort is added with its app.
Remedy: Join the two tables.
",
    ),
    (
        "C16",
        "C16 BadShare
Found in: an edit of a profile or a script.
A share is above 1000.
Usual cause: A share in another unit: it counts clients of 1000.
Remedy: Write 1000 for all clients, 50 for five in a hundred.
",
    ),
    (
        "C17",
        "C17 Limit
Found in: an edit of a profile or a script.
A limit of the catalogue is reached.
Usual cause: More than 64 apps, or in one app more than 512 releases, 16384 differentials or 32 cohorts.
Remedy: No edit removes anything: leave what no client needs out of the profile, and start the server from it.
",
    ),
];
