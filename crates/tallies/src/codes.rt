//! The statuses that a server replies with.

ghost use Rattle.std.specs.Prelude.{◌≡◌};
ghost use Rattle.tallies.specs.Codes.{position_of};

/// The statuses of all replies that a server sends.
pub const CODES: [u16; 13] = [
    200, 400, 403, 404, 405, 409, 411, 413, 422, 431, 500, 501, 503,
];

// rule: Counted statuses
/// The position of a status in `CODES`, if it is there.
pub fn position_of(code: u16) -> Option<usize>
    ensures { result ≡ position_of code }
{
    CODES.iter().position(|it| *it == code)
}
