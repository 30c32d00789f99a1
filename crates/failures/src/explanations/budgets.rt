// What there is to say of raises of budgets.

pub(crate) const BUDGETS: [(&str, &str); 3] = [
    (
        "B1",
        "B1 UnknownMirror
Found in: a raise of a budget.
No mirror of the server has the name.
Usual cause: A misspelled name, or a raise that was sent to another server.
Remedy: See the names in `omaha dump --to ADDR`.
",
    ),
    (
        "B2",
        "B2 TooHigh
Found in: a raise of a budget.
The budget is above 1152921504606846976 bytes, which is 2^60.
Usual cause: A digit too many.
Remedy: Give at most that number, which no mirror uses up.
",
    ),
    (
        "B3",
        "B3 Lower N
Found in: a raise of a budget.
The mirror's budget is N bytes, above the one that was asked for; a running server makes no budget smaller.
Usual cause: An earlier raise, or a number of bytes that leaves out those that were granted already.
Remedy: Give at least N; for a lower budget start the server anew with another profile.
",
    ),
];
