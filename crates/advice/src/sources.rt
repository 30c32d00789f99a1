//! The files and addresses that commands name.

ghost use Rattle.std.specs.Prelude.{◌≡◌, option_map};
ghost use Rattle.advice.specs.Sources.{aim_of, file_aim, history_aim, is_given_twice, is_named, packages_path, profile_in, profile_path, script_in, script_path, serve_aim, server_of, unless_input};

use crate::looks::Aim;
use omaha_arguments::{Command, Question, Serve, Source};
use values::Text;

// The string that may be missing.
fn string_of(text: &Option<Text>) -> Option<&str>
    ensures { option_map (λ path. path.now) result ≡ text.now }
{
    match text {
        Some(text) => Some(text.as_str()),
        None => None,
    }
}

fn profile_in(source: &Source) -> Option<&str>
    ensures { option_map (λ path. path.now) result ≡ profile_in source.now }
{
    match source {
        Source::Profile(path) => Some(path.as_str()),
        Source::Server(_) => None,
    }
}

/// The path of a command's profile.
pub(crate) fn profile_path(command: &Command) -> Option<&str>
    ensures { option_map (λ path. path.now) result ≡ profile_path command.now }
{
    match command {
        Command::Once(asked) => string_of(&asked.profile),
        Command::Report(asked) => Some(asked.profile.as_str()),
        Command::Compare(asked) => Some(asked.profile.as_str()),
        Command::Review(asked) => profile_in(&asked.source),
        Command::Graph(asked) => Some(asked.profile.as_str()),
        Command::Serve(asked) => string_of(&asked.profile),
        _ => None,
    }
}

fn script_in(question: &Question) -> Option<&str>
    ensures { option_map (λ path. path.now) result ≡ script_in question.now }
{
    match question {
        Question::Script(path) => Some(path.as_str()),
        _ => None,
    }
}

// A path, unless it means the standard input.
fn unless_input(path: &str) -> Option<&str>
    ensures { option_map (λ path. path.now) result ≡ unless_input path.now }
{
    if path == "-" { None } else { Some(path) }
}

/// The path of a command's script.
pub(crate) fn script_path(command: &Command) -> Option<&str>
    ensures { option_map (λ path. path.now) result ≡ script_path command.now }
{
    match command {
        Command::Report(asked) => script_in(&asked.question),
        Command::Review(asked) => string_of(&asked.script),
        Command::Publish(asked) => unless_input(asked.script.as_str()),
        _ => None,
    }
}

/// The address of a walk's server, or nothing.
pub(crate) fn server_of(command: &Command) -> &str
    ensures { result.now ≡ server_of command.now }
{
    match command {
        Command::Walk(asked) => asked.to.as_str(),
        _ => "",
    }
}

/// What a command does at an address.
pub(crate) fn aim_of(command: &Command) -> Aim
    ensures { result ≡ aim_of command.now }
{
    match command {
        Command::Serve(_) => Aim::Bind,
        Command::Publish(asked) if !asked.check => Aim::Post,
        Command::Raise(_) => Aim::Post,
        Command::Stop(_) => Aim::Post,
        _ => Aim::Connect,
    }
}

/// The path of a command's folder of packages that are compared.
pub(crate) fn packages_path(command: &Command) -> Option<&str>
    ensures { option_map (λ path. path.now) result ≡ packages_path command.now }
{
    match command {
        Command::Compare(asked) => Some(asked.packages.as_str()),
        Command::Publish(asked) => string_of(&asked.packages),
        _ => None,
    }
}

/// What a command does at the path of a history: a server that names a profile makes a new one there.
pub(crate) fn history_aim(command: &Command) -> Aim
    ensures { result ≡ history_aim command.now }
{
    match command {
        Command::Serve(asked) if asked.profile.is_some() => Aim::Append,
        _ => Aim::Read,
    }
}

// Whether a path is the one that is named, if one is.
fn is_named(path: &str, named: &Option<Text>) -> bool
    ensures { result ≡ is_named path.now named.now }
{
    match named {
        Some(named) => path == named.as_str(),
        None => false,
    }
}

/// Whether a server is to listen at an address both for clients and for the operator.
pub(crate) fn is_given_twice(command: &Command, address: &str) -> bool
    ensures { result ≡ is_given_twice command.now address.now }
{
    match command {
        Command::Serve(asked) => {
            address == asked.listen.as_str() && is_named(address, &asked.operator)
        }
        _ => false,
    }
}

// What a server does at a path.
fn serve_aim(asked: &Serve, path: &str) -> Aim
    ensures { result ≡ serve_aim asked.now path.now }
{
    if path == asked.packages.as_str() {
        Aim::Enter
    } else if is_named(path, &asked.log) {
        Aim::Append
    } else {
        Aim::Read
    }
}

/// What a command does at a path.
pub(crate) fn file_aim(command: &Command, path: &str) -> Aim
    ensures { result ≡ file_aim command.now path.now }
{
    match command {
        Command::Serve(asked) => serve_aim(asked, path),
        _ => Aim::Read,
    }
}
