//! What a client is, and what it asks.

ghost use Rattle.std.specs.Prelude.{◌≡◌, [], IfOk};
ghost use Rattle.omaha_json.specs.RequestWriting.{IsAppid};
ghost use Rattle.update_client.specs.Clients.{ask_of, check_of, request_of, client_after};

use crate::hearing::Accepted;
use omaha_json::{AppAsk, Check, Offer, Request};
use std::alloc::{AllocError, Global};
use std::marker::Model;
use values::{Items, Text};

/// An installed app, and what its client says when it asks for an update.
pub struct Client {
    app: Text,
    version: Text,
    fp: Text,
    cohort: Text,
    hint: Text,
    rollback: bool,
    session: Text,
    prefix: Option<Text>,
}

// Written out, so that no caller proves again how each part is dropped.
impl Drop for Client {
    fn drop(self) {
        let Client {
            app: _,
            version: _,
            fp: _,
            cohort: _,
            hint: _,
            rollback: _,
            session: _,
            prefix: _,
        } = self;
    }
}

impl Model for Client {
    ghost use Rattle.std.specs.Prelude.{[]};
    ghost use Rattle.std.specs.Option.{option_map_or};
    ghost use Rattle.omaha_json.specs.RequestWriting.{IsAppid};
    ghost use Rattle.update_client.specs.Installed.{Installed};

    ghost Value = { Installed };

    ghost view = { λ client. record {
      app = client.app;
      version = client.version;
      fp = client.fp;
      cohort = client.cohort;
      hint = client.hint;
      rollback = client.rollback;
      session = client.session;
      prefix = option_map_or (λ prefix. prefix) client.prefix [];
    } };

    ghost invariant = { λ client. IsAppid client.app };
}

impl Client {
    /// Makes the client of an app, whose administrator allows any version.
    ///
    /// `app` is the app's identifier, 1 to 256 bytes. `version` and `fp` are the version and the fingerprint that
    /// are installed, both empty if nothing is. `cohort` is the cohort text that the server sent last, `hint` the
    /// cohort that the client asks for; either may be empty. `rollback` allows a downgrade, and `session` is the
    /// identifier that all requests of a walk have.
    pub fn new(
        app: Text,
        version: Text,
        fp: Text,
        cohort: Text,
        hint: Text,
        rollback: bool,
        session: Text,
    ) -> Client
        requires { IsAppid app }
        ensures { result ≡ record {
          app = app;
          version = version;
          fp = fp;
          cohort = cohort;
          hint = hint;
          rollback = rollback;
          session = session;
          prefix = [];
        } }
    {
        Client {
            app,
            version,
            fp,
            cohort,
            hint,
            rollback,
            session,
            prefix: None,
        }
    }

    /// Makes the same client, whose administrator allows the versions of a prefix, as `cohorts::Pin` reads it.
    ///
    /// It sends the prefix with each request, whatever it is.
    pub fn with_prefix(self, prefix: Text) -> Client
        ensures { result ≡ record self { prefix = prefix } }
    {
        let mut client = self;
        client.prefix = Some(prefix);
        client
    }

    pub(crate) fn app(&self) -> &str
        ensures { result.now ≡ self.now.app }
    {
        self.app.as_str()
    }

    /// Borrows the installed version, empty if nothing is installed.
    pub fn version(&self) -> &str
        ensures { result.now ≡ self.now.version }
    {
        self.version.as_str()
    }

    /// Borrows the fingerprint of the installed version, empty if nothing is installed.
    pub fn fp(&self) -> &str
        ensures { result.now ≡ self.now.fp }
    {
        self.fp.as_str()
    }

    /// Borrows the cohort text to send next, or the empty string.
    pub fn cohort(&self) -> &str
        ensures { result.now ≡ self.now.cohort }
    {
        self.cohort.as_str()
    }

    // The prefix of versions that the administrator allows, empty for any.
    fn prefix(&self) -> &str
        ensures { result.now ≡ self.now.prefix }
    {
        match &self.prefix {
            Some(prefix) => prefix.as_str(),
            None => "",
        }
    }

    // rule: Client after a step
    pub(crate) fn take_over(&mut self, accepted: Accepted)
        ensures { self.new ≡ client_after self.old accepted }
    {
        let (cohort, offer) = accepted.into_parts();
        let Offer { version, fp, .. } = offer;
        self.version = version;
        self.fp = fp;
        if !cohort.as_str().is_empty() {
            self.cohort = cohort;
        }
    }
}

// Copies of two strings.
fn copy_both(alloc: Global, first: &str, second: &str) -> Result<(Text, Text), AllocError>
    ensures { IfOk result (λ both. (both.0 ≡ first.now) × (both.1 ≡ second.now)) }
{
    let first = Text::copy_of(alloc, first)?;
    let second = Text::copy_of(alloc, second)?;
    Ok((first, second))
}

// The update check of a client.
fn make_check(alloc: Global, client: &Client) -> Result<Check, AllocError>
    ensures { IfOk result (λ check. check ≡ check_of client.now) }
{
    Ok(Check {
        disabled: false,
        rollback: client.rollback,
        prefix: Text::copy_of(alloc, client.prefix())?,
    })
}

// What the client asks for its app.
fn make_ask(alloc: Global, client: &Client) -> Result<AppAsk, AllocError>
    ensures ask { IfOk result (λ ask. ask ≡ ask_of client.now) }
    ensures named { IsAppid client.now.app }
{
    let (appid, version) = copy_both(alloc, client.app.as_str(), client.version.as_str())?;
    let check = make_check(alloc, client)?;
    let (fp, cohort) = copy_both(alloc, client.fp.as_str(), client.cohort.as_str())?;
    let hint = Text::copy_of(alloc, client.hint.as_str())?;
    Ok(AppAsk {
        appid,
        version,
        fp,
        cohort,
        hint,
        check: Some(check),
        ping: false,
        events: 0,
    })
}

// rule: Request of a client
pub(crate) fn make_request(alloc: Global, client: &Client) -> Result<Request, AllocError>
    ensures request { IfOk result (λ request. request ≡ request_of client.now) }
    ensures named { IsAppid client.now.app }
{
    let ask = make_ask(alloc, client)?;
    let apps = Items::new(vec![in alloc; ask]?);
    Ok(Request {
        session: Text::copy_of(alloc, client.session.as_str())?,
        apps,
    })
}
