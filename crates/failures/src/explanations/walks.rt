// What there is to say of the faults of a walk.

pub(crate) const WALKS: [(&str, &str); 8] = [
    (
        "U1",
        "U1 Link
Found in: a walk.
The server or a mirror couldn't be reached, or its reply is no whole 200 with one length.
Usual cause: A misspelled ADDR or codebase of a mirror, nobody who listens there, a proxy, or a redirect.
Remedy: Try `curl -i http://ADDR/` and the mirror's codebase, and give ADDR as HOST:PORT.
",
    ),
    (
        "U2",
        "U2 Reply
Found in: a walk.
The reply is no reply of protocol 3.1 for this app alone, or the server doesn't know the app.
Usual cause: A misspelled `--app`, or another service at that address.
Remedy: Ask the server for its reply: `curl -d '{..}' http://ADDR/service/update2/json`.
",
    ),
    (
        "U3",
        "U3 BadLength
Found in: a walk.
A download has fewer or more bytes than were offered, or ended early.
Usual cause: A package that is missing or was replaced on the server or its mirror.
Remedy: Compare the packages with the profile: `omaha check F --packages DIR`.
",
    ),
    (
        "U4",
        "U4 BadHash
Found in: a walk.
A download has the offered length and another SHA-256.
Usual cause: A package that was replaced on the server or its mirror, or a cache in between.
Remedy: Compare the packages with the profile: `omaha check F --packages DIR`.
",
    ),
    (
        "U5",
        "U5 Install
Found in: a walk.
The line of a step couldn't be written, or there was no memory for it; the step isn't committed.
Usual cause: A full disk, or a pipe whose reader ended.
Remedy: Make room, or read all of the output.
",
    ),
    (
        "U6",
        "U6 NoProgress
Found in: a walk.
The server offered the fingerprint that is installed.
Usual cause: A server that doesn't look at `fp`, or a cached reply.
Remedy: Ask the server itself, without a cache in between.
",
    ),
    (
        "U7",
        "U7 TooManySteps
Found in: a walk.
There was an offer after 1024 steps.
Usual cause: Offers that lead round in a circle; `omaha serve` makes none.
Remedy: Look at the versions of the printed steps.
",
    ),
    (
        "U8",
        "U8 Busy
Found in: a walk.
The server had no mirror with room for the package, and said `error-internal`.
Usual cause: The budgets in the profile are used up.
Remedy: Raise a mirror's budget: `omaha raise --to ADDR NAME BUDGET`.
",
    ),
];
