// A sender to the log before its port is served.

ghost use Rattle.std.specs.Prelude.{◌≡◌};
ghost use Rattle.access_logs.specs.Logs.{IsFresh};

use access_logs::LineSender;
use std::marker::Model;

/// A sender to the log that has sent nothing; contracts see the sender.
pub struct NewSender {
    lines: LineSender,
}

// Written out, so that no caller proves again how each part is dropped.
impl Drop for NewSender {
    fn drop(self) {
        let NewSender { lines: _ } = self;
    }
}

impl Model for NewSender {
    ghost use Rattle.access_logs.specs.Logs.{IsFresh};
    ghost use Rattle.access_logs.specs.Queues.{Sending};

    ghost Value = { Sending };

    ghost view = { λ new. new.lines };

    ghost invariant = { λ new. IsFresh new.lines };
}

impl NewSender {
    /// Takes a sender that has sent nothing.
    pub(crate) fn of(lines: LineSender) -> NewSender
        requires { IsFresh lines }
        ensures { result ≡ lines }
    {
        NewSender { lines }
    }

    /// Gives the sender.
    pub(crate) fn into_lines(self) -> LineSender
        ensures lines { result ≡ self }
        ensures fresh { IsFresh result }
    {
        let NewSender { lines } = self;
        lines
    }
}
