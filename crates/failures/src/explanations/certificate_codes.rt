// What there is to say of the faults of certificates.

pub(crate) const CERTIFICATES: [(&str, &str); 4] = [
    (
        "P1",
        "P1 BadLine
Found in: a certificate.
That line of the certificate, from 1, is not well formed, is missing or is too many.
Usual cause: A leading zero, a space at the end, CR LF, or a file that was cut.
Remedy: Write the certificate anew by `omaha certify`.
",
    ),
    (
        "P2",
        "P2 NotOfThisGraph
Found in: a certificate.
That line of the certificate, from 1, doesn't fit the profile.
Usual cause: A certificate of another profile, of an older one, or of another track.
Remedy: Verify it against the profile that it was made of.
",
    ),
    (
        "wrong",
        "wrong VERSION RULE
Found in: a certificate.
The certificate's row of that version breaks the rule, C1 to C4.
Usual cause: The profile has changed since, or the certificate was made by something else.
Remedy: C1: the end is not the target. C2: a price is too high or missing. C3: too low. C4: not the first payload.
",
    ),
    (
        "no",
        "no track
Found in: a certificate, and the output of `graph`.
The profile has no table of prices for that track. Of `graph`: it has no such app, cohort or release.
Usual cause: No such app or cohort, a cohort without that target, or a downgrade that the cohort doesn't allow.
Remedy: Set `target`, `held` or `rollback` of the cohort, or name another track; of `graph`, another app or release.
",
    ),
];
