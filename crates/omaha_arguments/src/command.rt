//! What a run of the program is asked to do.

use cohorts::TrackNames;
use values::{Items, Text};

/// What the arguments ask for.
#[derive(Drop)]
pub struct Invocation {
    /// What to do.
    pub command: Command,
    /// Whether `--verbose` is given: standard error then says more.
    pub verbose: bool,
}

/// What a run of the program is asked to do.
pub enum Command {
    /// To reply to a request.
    Once(Once),
    /// To report on a profile.
    Report(Report),
    /// To compare a profile's packages with their files.
    Compare(Comparison),
    /// To review a profile, or what a script changes of it.
    Review(Review),
    /// To draw an app of a profile.
    Graph(Graph),
    /// To describe the files of these paths.
    Describe(Items<Text>),
    /// To explain a code that the program prints, or to list them all.
    Explain(Option<Text>),
    /// To serve a profile and its packages.
    Serve(Serve),
    /// To walk along the offers of a server.
    Walk(Walk),
    /// To publish a script to a running server.
    Publish(Publication),
    /// To print a script.
    Script(Script),
    /// To raise a mirror's budget on a running server.
    Raise(Raise),
    /// To print the profile that a running server has published.
    Dump(ServerAsked),
    /// To print the edition of a running server, and what its mirrors granted.
    Status(ServerAsked),
    /// To stop a running server.
    Stop(Stop),
    /// To read a history, or to make it shorter.
    History(HistoryAsked),
}

// Written out, so that no caller proves again how each part is dropped.
impl Drop for Command {
    fn drop(self) {
        match self {
            Command::Once(_) => {}
            Command::Report(_) => {}
            Command::Compare(_) => {}
            Command::Review(_) => {}
            Command::Graph(_) => {}
            Command::Describe(_) => {}
            Command::Explain(_) => {}
            Command::Serve(_) => {}
            Command::Walk(_) => {}
            Command::Publish(_) => {}
            Command::Script(_) => {}
            Command::Raise(_) => {}
            Command::Dump(_) => {}
            Command::Status(_) => {}
            Command::Stop(_) => {}
            Command::History(_) => {}
        }
    }
}

/// What the command `once` is asked to do.
pub struct Once {
    /// The path of the profile, or `None` for the built-in catalogue.
    pub profile: Option<Text>,
    /// The time of the reply, in seconds since 1 January 1970 UTC.
    pub moment: u64,
}

// Written out, so that no caller proves again how each part is dropped.
impl Drop for Once {
    fn drop(self) {
        let Once {
            profile: _,
            moment: _,
        } = self;
    }
}

/// What the command `history` is asked to do.
pub struct HistoryAsked {
    /// The path of the history.
    pub path: Text,
    /// What to do with it.
    pub action: HistoryAction,
}

// Written out, so that no caller proves again how each part is dropped.
impl Drop for HistoryAsked {
    fn drop(self) {
        let HistoryAsked { path: _, action: _ } = self;
    }
}

/// What to do with a history.
#[derive(Clone, Copy, Drop)]
pub enum HistoryAction {
    /// To list its records.
    List,
    /// To print the profile of the edition of this number, or of the last one.
    Export(Option<u64>),
    /// To replace its records by one, the profile of the last edition.
    Compact,
}

/// What the command `serve` is asked to do. It names a profile or a history, or both.
pub struct Serve {
    /// The path of the profile, or `None` for that of the history.
    pub profile: Option<Text>,
    /// The path of the history that keeps what is published, or `None` for none.
    pub history: Option<Text>,
    /// How many bytes the history's records may have together.
    pub history_limit: u64,
    /// How many milliseconds there are between two looks at a history in etcd: 1 to 60000.
    pub follow: u64,
    /// The path of the folder of packages.
    pub packages: Text,
    /// Whether a release is published only if its packages are in the folder.
    pub packages_must_exist: bool,
    /// The address to listen on.
    pub listen: Text,
    /// The address to listen on for the operator, or `None` for no operator.
    pub operator: Option<Text>,
    /// How many workers serve: 1 to 8.
    pub workers: u64,
    /// How many sessions of clients there are, or `None` for no end.
    pub sessions: Option<u64>,
    /// How many sessions of the operator there are, or `None` for no end.
    pub edits: Option<u64>,
    /// How many seconds a whole message may take, and each part of a reply: 1 to 86400.
    pub timeout: u64,
    /// How many seconds a connection may wait for its next message: 1 to 86400.
    pub idle: u64,
    /// How many connections of clients may be open at once: 1 to 1048576.
    pub connections: u64,
    /// How many tables of pinned clients each worker keeps.
    pub pinned_tables: u64,
    /// The path of the log of replies, `-` for standard error, or `None` for no log.
    pub log: Option<Text>,
}

// Written out, so that no caller proves again how each part is dropped.
impl Drop for Serve {
    fn drop(self) {
        let Serve {
            profile: _,
            history: _,
            history_limit: _,
            follow: _,
            packages: _,
            packages_must_exist: _,
            listen: _,
            operator: _,
            workers: _,
            sessions: _,
            edits: _,
            timeout: _,
            idle: _,
            connections: _,
            pinned_tables: _,
            log: _,
        } = self;
    }
}

/// What the command `publish` is asked to do.
pub struct Publication {
    /// The operator's listener, as `HOST:PORT`.
    pub to: Text,
    /// The path of the script.
    pub script: Text,
    /// Whether the script is only checked, and not published.
    pub check: bool,
    /// The path of the folder that has to have what the script adds, or `None` to look for nothing.
    pub packages: Option<Text>,
    /// How many seconds the whole exchange may take: 1 to 86400.
    pub timeout: u64,
}

// Written out, so that no caller proves again how each part is dropped.
impl Drop for Publication {
    fn drop(self) {
        let Publication {
            to: _,
            script: _,
            check: _,
            packages: _,
            timeout: _,
        } = self;
    }
}

/// What a command is asked to do that only asks a server: `dump` or `status`.
pub struct ServerAsked {
    /// The operator's listener, as `HOST:PORT`.
    pub to: Text,
    /// How many seconds the whole exchange may take: 1 to 86400.
    pub timeout: u64,
}

// Written out, so that no caller proves again how each part is dropped.
impl Drop for ServerAsked {
    fn drop(self) {
        let ServerAsked { to: _, timeout: _ } = self;
    }
}

/// What the command `stop` is asked to do.
#[derive(Drop)]
pub struct Stop {
    /// The operator's listener, as `HOST:PORT`.
    pub to: Text,
    /// How many seconds the server may take to end: 1 to 86400.
    pub timeout: u64,
}

/// Which edition a script is written for.
#[derive(Drop)]
pub enum Base {
    /// The edition of this number.
    Number(u64),
    /// The edition of a running server: its operator's listener, as `HOST:PORT`.
    Server(Text),
}

/// What the command `script` is asked to do.
pub struct Script {
    /// The edition that the script is written for.
    pub base: Base,
    /// What its edits do, and their keys with their values, as they were given.
    pub words: Items<Text>,
}

// Written out, so that no caller proves again how each part is dropped.
impl Drop for Script {
    fn drop(self) {
        let Script { base: _, words: _ } = self;
    }
}

/// What the command `raise` is asked to do.
pub struct Raise {
    /// The operator's listener, as `HOST:PORT`.
    pub to: Text,
    /// The mirror's name, as it was given.
    pub name: Text,
    /// The budget in bytes, as it was given.
    pub budget: Text,
    /// How many seconds the whole exchange may take: 1 to 86400.
    pub timeout: u64,
}

// Written out, so that no caller proves again how each part is dropped.
impl Drop for Raise {
    fn drop(self) {
        let Raise {
            to: _,
            name: _,
            budget: _,
            timeout: _,
        } = self;
    }
}

/// What the command `check` is asked to do with a folder of packages.
pub struct Comparison {
    /// The path of the profile.
    pub profile: Text,
    /// The path of the folder of packages.
    pub packages: Text,
    /// How many threads make the tables: 1 to 8.
    pub workers: usize,
}

// Written out, so that no caller proves again how each part is dropped.
impl Drop for Comparison {
    fn drop(self) {
        let Comparison {
            profile: _,
            packages: _,
            workers: _,
        } = self;
    }
}

/// Where the catalogue is that is reviewed.
#[derive(Drop)]
pub enum Source {
    /// The profile in the file of this path.
    Profile(Text),
    /// What a running server has published: its operator's listener, as `HOST:PORT`.
    Server(Text),
}

/// What the command `review` is asked to do.
pub struct Review {
    /// Where the catalogue is.
    pub source: Source,
    /// The path of the script whose changes are reviewed, or `None` to review the catalogue.
    pub script: Option<Text>,
    /// Whether each stuck release is printed, not just the first 40 of a track.
    pub all: bool,
    /// Whether the review is printed as JSON objects, one on each line, with each stuck release.
    pub json: bool,
    /// Whether the command fails if a release is stuck or, with a script, newly stuck, or if it cuts new clients off.
    pub strict: bool,
}

// Written out, so that no caller proves again how each part is dropped.
impl Drop for Review {
    fn drop(self) {
        let Review {
            source: _,
            script: _,
            all: _,
            json: _,
            strict: _,
        } = self;
    }
}

/// What the command `graph` is asked to do.
pub struct Graph {
    /// The path of the profile.
    pub profile: Text,
    /// The app's name.
    pub app: Text,
    /// The name of the one cohort that is drawn, or `None` for all of the app's.
    pub cohort: Option<Text>,
    /// The version of the one release whose chains are drawn, or `None` for those of all releases.
    pub from: Option<Text>,
    /// Whether the picture is a graph for Graphviz, and not an SVG image.
    pub dot: bool,
}

// Written out, so that no caller proves again how each part is dropped.
impl Drop for Graph {
    fn drop(self) {
        let Graph {
            profile: _,
            app: _,
            cohort: _,
            from: _,
            dot: _,
        } = self;
    }
}

/// What the command `walk` is asked to do. What isn't given is empty.
pub struct Walk {
    /// The server, as `HOST:PORT`.
    pub to: Text,
    /// The app's identifier, 1 to 256 bytes.
    pub app: Text,
    /// The installed version.
    pub version: Text,
    /// The fingerprint of the installed version.
    pub fp: Text,
    /// The cohort text that the server sent last.
    pub cohort: Text,
    /// The session's identifier.
    pub session: Text,
    /// The prefix of versions that the client is pinned to.
    pub prefix: Text,
    /// Whether a downgrade is allowed.
    pub rollback: bool,
    /// How many seconds a whole update check may take, and 64 KiB of a download: 1 to 86400.
    pub timeout: u64,
}

// Written out, so that no caller proves again how each part is dropped.
impl Drop for Walk {
    fn drop(self) {
        let Walk {
            to: _,
            app: _,
            version: _,
            fp: _,
            cohort: _,
            session: _,
            prefix: _,
            rollback: _,
            timeout: _,
        } = self;
    }
}

/// What is asked about a profile.
pub struct Report {
    /// The path of the profile.
    pub profile: Text,
    /// How many threads make the tables: 1 to 8.
    pub workers: usize,
    /// The question.
    pub question: Question,
}

// Written out, so that no caller proves again how each part is dropped.
impl Drop for Report {
    fn drop(self) {
        let Report {
            profile: _,
            workers: _,
            question: _,
        } = self;
    }
}

/// A question about a profile.
#[derive(Drop)]
pub enum Question {
    /// What it has.
    Check,
    /// What it has, and which targets no client can reach.
    Warn,
    /// What it has after a script, by the path of the script's file.
    Script(Text),
    /// The certificate of a track.
    Certify(TrackNames),
    /// Whether a certificate is valid, by the path of its file.
    Verify(Text),
}
