// What there is to say of other words.

pub(crate) const WORDS: [(&str, &str); 13] = [
    (
        "edit",
        "edit N: CODE
Found in: a profile; of a script, the output of `check --script`, `review --script` and `publish --check`.
The edit of that index, from 0, is rejected with that code.
Usual cause: See the code: `omaha explain CODE`.
Remedy: `omaha once --help` says in which order the edits of a profile count; those of a script count in its order.
",
    ),
    (
        "file",
        "file F
Found in: a path of the command line.
The file can't be read, is no regular file, or has more than 256 MiB; `omaha describe` says what is wrong with it. Of a
script: it may also have more than 262144 bytes. Of `--log F`: the file can't be opened for writing. Of `--packages F`:
there is no such folder.
Usual cause: A misspelled path, missing permission, a folder, a pipe, or a script that is too long.
Remedy: Try `head F`; of a log, `touch F`; of packages, `ls F`. Divide a script that is too long.
",
    ),
    (
        "net",
        "net ADDR
Found in: an address of the command line.
`serve` can't listen on the address, or may not open two more files, for a connection and a package. `publish`, `raise`,
`dump`, `status`, `stop`, `review --to` and `script --to` can't reach an operator's listener there, or its reply isn't
whole, or doesn't name the edition that they ask for.
Usual cause: No address and port, a port in use, or one below 1024 without the right to it; a server that is not running.
Of unix:PATH, another file, or no right to the folder.
Remedy: Try another port, or `ss -ltn` to see who has it, `ls -l PATH`; see that `ulimit -n` is above 8.
",
    ),
    (
        "place",
        "no place
Found in: the start of `serve`.
There are fewer places for readers of the published edition than workers.
Usual cause: An error in omaha: it makes a place for each worker.
Remedy: Start it again, and report this.
",
    ),
    (
        "closed",
        "closed
Found in: the view of the edition.
The command `once` found no published edition to reply from.
Usual cause: None; the edition is published before the request is read.
Remedy: Start it anew, and report it.
",
    ),
    (
        "thread",
        "thread
Found in: the start of `serve`.
A thread of a worker, of the log, or of the looks at a shared history could not be started. No connection was accepted.
Usual cause: A limit of threads or of memory, as `ulimit -u`, or `TasksMax=` of a unit.
Remedy: Raise the limit, or serve with fewer workers.
",
    ),
    (
        "room",
        "room left
Found in: the end of `serve`.
Bytes were rejected for which a mirror has room, by its total and the budget it began with. No total is printed.
Usual cause: An error in omaha. A reply may have had `error-internal` in vain.
Remedy: Report it, and start it again. What the mirrors were granted is in no line then.
",
    ),
    (
        "unpublished",
        "unpublished
Found in: the end of `serve`.
A worker's view of the editions was found not to be of what the operator published. No total is printed.
Usual cause: An error in omaha. The replies were sent, each from one edition.
Remedy: Report it, and start it again. What the mirrors were granted is in no line then.
",
    ),
    (
        "ended",
        "ended early
Found in: the end of `serve`.
A port ended before its last connection, though nobody stopped the server. No total is printed.
Usual cause: An error in omaha. The replies were sent, each from one edition.
Remedy: Report it, and start it again. What the mirrors were granted is in no line then.
",
    ),
    (
        "packages",
        "packages N
Found in: a folder of packages.
N declared packages differ from their files, or have none that can be read; a line of the output names each.
Usual cause: A package that was not copied, was built anew, or has a wrong line in the profile.
Remedy: Copy the package, or write into the profile what `omaha describe FILE` prints.
",
    ),
    (
        "read",
        "read
Found in: standard input: the request of `once`, or the script of `publish -`.
Standard input failed, or has more than 262144 bytes.
Usual cause: A closed terminal, or a file that is no request or script.
Remedy: Give the request or the script by `< FILE` or a pipe.
",
    ),
    (
        "write",
        "write
Found in: standard output.
Standard output failed.
Usual cause: A full disk, or a pipe whose reader ended.
Remedy: Make room, or read all of the output.
",
    ),
    (
        "memory",
        "memory
Found in: any command.
The program found no more memory.
Usual cause: A limit of the shell or the service, or a very large profile.
Remedy: Raise the limit (`ulimit -v`, `MemoryMax=`).
",
    ),
];
