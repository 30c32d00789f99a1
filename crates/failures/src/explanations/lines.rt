// What there is to say of the lines of a server's operator and of reports, by their first words.

pub(crate) const LINES: [(&str, &str); 20] = [
    (
        "edition",
        "edition N
Found in: the reply to a script, and the output of `check`.
The script is published as edition N. Of `check`: the profile makes the edition 1, and the line counts what it has.
Usual cause: A script whose base was the published edition; a valid profile.
Remedy: None is needed; without --history keep an `omaha dump --to ADDR`, as a restart begins from the profile.
",
    ),
    (
        "stale",
        "stale N
Found in: the reply to a script, and the output of `check --script`, `review --script` and `publish --check`.
Edition N is published, and the script's `base` is another one; nothing is changed. A profile's edition is 1.
Usual cause: Another script was published, this one was sent twice, or a server without --history was started again.
Remedy: If `omaha dump --to ADDR` lacks the edits, set `base` to N, see `omaha review --to ADDR`, and send it again.
",
    ),
    (
        "refused",
        "refused I CODE NAME, or refused CODE NAME
Found in: the reply to a script or a raise.
The catalogue rejects the edit of that index, from 0, or the mirrors the raise; nothing is changed.
Usual cause: See the code: `omaha explain CODE`.
Remedy: Correct the edit, or the raise, and send it again with the same base.
",
    ),
    (
        "history",
        "history full, history unreachable, history in doubt, or history F: REASON
Found in: the reply to a script or a raise; of a history F: `serve` and `history`.
full: 4096 editions. unreachable: no server of etcd replies. in doubt: none, and it may be kept. F can't be used.
Usual cause: Thousands of scripts; servers of etcd are down; a file in use, another profile than its first one, a full disk.
Remedy: full: `omaha history compact F`, or start from `omaha dump`, at base 1. Else: wait, look at the edition, send again.
",
    ),
    (
        "followed",
        "followed N
Found in: the reply to `follow`, which a server with a history in etcd sends to its own operator's address.
A record of another server was adopted, and edition N is published; there may be a further record.
Usual cause: A script or a raise that was sent to another server of the history.
Remedy: None is needed.
",
    ),
    (
        "bad",
        "bad raise
Found in: the reply to a raise.
The body begins with `raise ` and isn't `raise NAME BUDGET`; nothing is changed.
Usual cause: A budget that isn't a decimal number, a leading zero, or more than one space.
Remedy: Use `omaha raise --to ADDR NAME BUDGET`.
",
    ),
    (
        "raised",
        "raised NAME BUDGET
Found in: the reply to a raise.
The mirror's budget is that many bytes, with those that were granted already.
Usual cause: A raise of at least the present budget.
Remedy: None is needed; without --history write the number into the profile, or the next start has the old one.
",
    ),
    (
        "stopping",
        "stopping ADDR, or stopping
Found in: the output of `stop`, and alone also the reply to `/healthz`.
Alone: the server ends once it has finished what it began. With ADDR: it hasn't within `--timeout` seconds, and goes on.
Usual cause: A stop; with an address, a large download, or a client that reads slowly.
Remedy: None is needed; with an address, stop it again with a longer --timeout, or end it at once by a signal.
",
    ),
    (
        "ready",
        "ready
Found in: the output of `serve`.
The server listens at its addresses; the clients that connect are served.
Usual cause: A start without a failure.
Remedy: None is needed.
",
    ),
    (
        "step",
        "step N KIND VERSION BYTES
Found in: the output of `walk`.
The offer of step N was downloaded and checked: `full` or `diff`, the version it leads to, and its bytes.
Usual cause: A chain that leads to the target.
Remedy: None is needed; `omaha explain` with the line after the last step says how the walk ended.
",
    ),
    (
        "done",
        "done N steps BYTES bytes
Found in: the output of `walk`.
The server replied `noupdate` after N steps.
Usual cause: A client at its target, or one from which no chain reaches the target.
Remedy: If it isn't at its target: `omaha certify` lists the releases from which a chain reaches it.
",
    ),
    (
        "missing",
        "missing
Found in: a package's line of `check --packages`, `publish --packages`, `serve` and its reply; a file of `describe`.
There is no file of that name in the folder; of `serve`, or it can't be opened, or is a link.
Usual cause: A package that was not copied, a misspelled `name`, or a file that the server's user may not read.
Remedy: Copy the package into the folder, or correct the profile.
",
    ),
    (
        "not",
        "not a regular file
Found in: a package's line of `check --packages` and `publish --packages`, and a file of `describe`.
What has the name is a folder, a pipe or a link.
Usual cause: A link to a package that is kept elsewhere.
Remedy: Copy the file itself.
",
    ),
    (
        "size",
        "size N
Found in: a package's line of `check --packages`, `publish --packages`, `serve` and its reply; a file of `describe`.
The file has N bytes, and not as many as the profile or the script declares, or as a package may have.
Usual cause: A copy that was cut, a package that was built anew, or an empty file.
Remedy: Copy the package again, or write into the profile what `omaha describe FILE` prints.
",
    ),
    (
        "sha256",
        "sha256 differs
Found in: a package's line of `check --packages` and `publish --packages`.
The file has the declared size and another SHA-256.
Usual cause: A package that was built anew under its old name.
Remedy: Copy the declared package; give a changed one a name of its own.
",
    ),
    (
        "unreadable",
        "unreadable
Found in: a package's line of `check --packages` and `publish --packages`, and a file of `describe`.
The file can't be opened, or reading it failed.
Usual cause: A missing permission.
Remedy: Try `head FILE` as the user that the server has.
",
    ),
    (
        "script",
        "script CODE
Found in: the output of `script`, `check --script`, `review --script`, `publish --check` and `publish --packages`.
The script is invalid, as the code says; nothing is printed or published.
Usual cause: See the code: `omaha explain CODE`.
Remedy: Correct the script, or the edits that were typed, and try again.
",
    ),
    (
        "stuck",
        "stuck N
Found in: the output of `review --strict`.
N releases are stuck, or newly stuck by the script, with new clients whom it cuts off: nothing leads to the target.
Usual cause: A withdrawn target, a stone that can't be reached, a floor, or a target below a release.
Remedy: `omaha review F` prints each of them with its reason, and `omaha review --help` explains the reasons.
",
    ),
    (
        "status",
        "status N at ADDR
Found in: the output of `publish`, `raise`, `dump`, `status`, `stop` and `review --to`.
Who listens at ADDR replied with the HTTP status N, and with no line that an operator's listener replies with.
Usual cause: The clients' address in place of the operator's, another server, a proxy, or an omaha of another version.
Remedy: Use the address of `serve --operator`, and no proxy before it. Of 500: look at the server's standard error.
",
    ),
    (
        "lines",
        "lines of the log that were lost: N
Found in: the log of `serve`.
The log was written more slowly than replies were made: N lines of a worker are not in it, and no reply waited.
Usual cause: A slow disk, or a pipe of `--log -` that was not read for a while.
Remedy: Log to a faster disk, or read the pipe all the time.
",
    ),
];
