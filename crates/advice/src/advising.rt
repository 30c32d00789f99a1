//! Advice on failures.

ghost use Rattle.std.specs.Prelude.{◌≡◌, [], Err, IfOk, IfSome, List, None, Ok, option_map, string_bytes, true, ℕ};
ghost use Rattle.advice.specs.Advising.{IsAdvice, IsEditAdvice, IsFileAdvice, IsFolderAdvice, IsFound, IsHistoryAdvice, IsRefused, IsWalkAdvice};
ghost use Rattle.advice.specs.Documents.{edits_in, notice_of};
ghost use Rattle.advice.specs.Looks.{IsAddressAdvice};
ghost use Rattle.advice.specs.Replies.{IsPathSaid, explained};
ghost use Rattle.advice.specs.Sources.{aim_of, is_given_twice, packages_path, profile_path, script_path, server_of};
ghost use Rattle.advice.specs.declared.tables.Kind.TheVariants as kind;
ghost use Rattle.catalogue.specs.Batches.{outcome};
ghost use Rattle.catalogue.specs.declared.edit.Edit.{Edit};
ghost use Rattle.failures.specs.Failures.{failure_string};
ghost use Rattle.streams.specs.Reading.{IsWhole};

use crate::documents::{MAX_FILE, Trouble};
use crate::looks::{Aim, Looks, address_advice, look_again, odd_look, server_advice};
use crate::replied::{explained, path_said, reply_advice};
use crate::sources::{
    aim_of, file_aim, history_aim, is_given_twice, packages_path, profile_path, script_path,
    server_of,
};
use crate::tables::Kind;
use catalogue::{Batch, Catalogue, Refused};
use failures::{Failure, HistoryFault};
use kept_records::OpenFault;
use omaha_arguments::Command;
use profile_toml::read_profile;
use std::alloc::{AllocError, Global};
use streams::Disk;
use update_client::Fault as WalkFault;
use values::ReadError;

// Whether a batch of the empty catalogue is rejected so.
fn is_rejected_so(alloc: Global, batch: &Batch, refused: Refused) -> bool
    ensures { result ≡ true → outcome batch.now [] ≡ Err refused }
{
    match Catalogue::empty(alloc).applied(batch) {
        Err(ReadError::Fault(found)) => found == refused,
        _ => false,
    }
}

// Whether the edits of a profile are rejected so.
fn rejects(alloc: Global, profile: &[u8], refused: Refused) -> bool
    ensures { result ≡ true → (edits : List Edit) × (edits_in kind.Profile profile.now ≡ Ok edits) × (outcome edits [] ≡ Err refused) }
{
    match read_profile(alloc, profile) {
        Ok((batch, _)) => is_rejected_so(alloc, &batch, refused),
        Err(_) => false,
    }
}

// Whether the profile at a path has that rejected edit.
fn has_rejected<R: Disk>(rt: &R, alloc: Global, path: Option<&str>, refused: Refused) -> bool
    ensures { result ≡ true → IsRefused (R.file_at rt.now) (option_map (λ path. path.now) path.entry) refused }
{
    match path {
        Some(path) => match rt.read_file(alloc, path, MAX_FILE) {
            Ok(profile) => rejects(alloc, &profile, refused),
            Err(_) => false,
        },
        None => false,
    }
}

// rule: Place of a rejected edit
fn edit_advice<R: Disk>(
    rt: &R,
    alloc: Global,
    command: &Command,
    refused: Refused,
) -> Option<String>
    ensures { IfSome result (λ said. IsEditAdvice (R.file_at rt.now) command.now refused (string_bytes said)) }
{
    let (profile, script) = (profile_path(command), script_path(command));
    let trouble = Trouble::Edit(refused);
    if script.is_none() || has_rejected(rt, alloc, profile, refused) {
        path_said(rt, alloc, profile, Kind::Profile, trouble)
    } else {
        path_said(rt, alloc, script, Kind::Script, trouble)
    }
}

// What is wrong in the command's profile.
fn profile_said<R: Disk>(
    rt: &R,
    alloc: Global,
    command: &Command,
    trouble: Trouble<'_>,
) -> Option<String>
    ensures { IfSome result (λ said. IsPathSaid (R.file_at rt.now) (profile_path command.now) kind.Profile (notice_of trouble.entry) (string_bytes said)) }
{
    path_said(rt, alloc, profile_path(command), Kind::Profile, trouble)
}

// What is wrong in the command's script.
fn script_said<R: Disk>(
    rt: &R,
    alloc: Global,
    command: &Command,
    trouble: Trouble<'_>,
) -> Option<String>
    ensures { IfSome result (λ said. IsPathSaid (R.file_at rt.now) (script_path command.now) kind.Script (notice_of trouble.entry) (string_bytes said)) }
{
    path_said(rt, alloc, script_path(command), Kind::Script, trouble)
}

// rule: Advice on a file
// What a second look finds at a path, by what the command does there.
fn file_advice<R: Looks>(rt: &R, alloc: Global, command: &Command, path: &str) -> Option<String>
    ensures { IfSome result (λ said. IsFileAdvice (R.sights rt.now) command.now path.now (string_bytes said)) }
{
    look_again(rt, alloc, file_aim(command, path), path, "file")
}

// What is wrong with an address, or what a second look finds there, by what the command does there.
fn net_advice<R: Looks>(rt: &R, alloc: Global, command: &Command, address: &str) -> Option<String>
    ensures { IfSome result (λ said. IsAddressAdvice (R.sights rt.now) (aim_of command.now) address.now
        (is_given_twice command.now address.now) (string_bytes said)) }
{
    let is_twice = is_given_twice(command, address);
    address_advice(rt, alloc, aim_of(command), address, is_twice)
}

// rule: Advice on a walk
// What is wrong with the address of a walk's server, or what a second look finds there, if the link failed.
fn walk_advice<R: Looks>(
    rt: &R,
    alloc: Global,
    command: &Command,
    fault: WalkFault,
) -> Option<String>
    ensures { IfSome result (λ said. IsWalkAdvice (R.sights rt.now) fault (server_of command.now) (string_bytes said)) }
{
    match fault {
        WalkFault::Link => server_advice(rt, alloc, server_of(command)),
        _ => None,
    }
}

// rule: Advice on compared packages
// What a second look finds in place of the folder of packages.
fn folder_advice<R: Looks>(rt: &R, alloc: Global, path: Option<&str>) -> Option<String>
    ensures { IfSome result (λ said. IsFolderAdvice (R.sights rt.now) (option_map (λ path. path.now) path.entry) (string_bytes said)) }
{
    match path {
        Some(path) => odd_look(rt, alloc, Aim::Enter, path, "packages"),
        None => None,
    }
}

// rule: Advice on a history
// What a second look finds at the path of a history that can't be opened.
fn history_advice<R: Looks>(
    rt: &R,
    alloc: Global,
    command: &Command,
    path: &str,
    fault: &HistoryFault,
) -> Option<String>
    ensures { IfSome result (λ said. IsHistoryAdvice (R.sights rt.now) command.now path.now fault.now (string_bytes said)) }
{
    match fault {
        HistoryFault::Open(OpenFault::Unopened) => {
            odd_look(rt, alloc, history_aim(command), path, "history")
        }
        _ => None,
    }
}

// A copy of a string.
fn fixed(alloc: Global, text: &str) -> Option<String>
    ensures { IfSome result (λ copy. string_bytes copy ≡ text.now) }
{
    String::from_str(alloc, text).ok()
}

// What is found of a failure.
fn find<R: Disk + Looks + AllocGlobal>(
    rt: &R,
    command: &Command,
    failure: &Failure,
) -> Option<String>
    ensures { IfSome result (λ said. IsFound (R.file_at rt.now) (R.sights rt.now) command.now failure.now (string_bytes said)) }
{
    let alloc = rt.alloc();
    match failure {
        Failure::Profile(fault) => profile_said(rt, alloc, command, Trouble::Fault(fault)),
        Failure::Script(fault) => script_said(rt, alloc, command, Trouble::Fault(fault)),
        Failure::Edit(refused) => edit_advice(rt, alloc, command, *refused),
        Failure::Stale(number) => script_said(rt, alloc, command, Trouble::Stale(*number)),
        Failure::Net(address) => net_advice(rt, alloc, command, address.as_str()),
        Failure::File(path) => file_advice(rt, alloc, command, path.as_str()),
        Failure::Walk(fault) => walk_advice(rt, alloc, command, *fault),
        Failure::Packages(_) => folder_advice(rt, alloc, packages_path(command)),
        Failure::History(path, fault) => history_advice(rt, alloc, command, path.as_str(), fault),
        Failure::Declined(reply) => reply_advice(rt, alloc, command, reply.body.as_slice()),
        Failure::Code(_) => fixed(alloc, "omaha explain lists all codes"),
        Failure::NoPlace => fixed(alloc, "see omaha explain place"),
        _ => None,
    }
}

// Says where the line of a failure is explained, if it is.
fn explain_failure(alloc: Global, failure: &Failure) -> Result<Option<String>, AllocError>
    ensures { IfOk result (λ said. option_map string_bytes said ≡ explained (failure_string failure.now)) }
{
    match format!(in alloc; "{failure}") {
        Ok(line) => explained(alloc, line.as_str()),
        Err(error) => Err(error),
    }
}

// rule: Advice on a failure
/// Says more of a failure of a command than its line: the value, its place and what to do; else where the line is
/// explained. Nothing without memory, or if nothing is to be said.
///
/// Of an invalid script or profile it reads the file again. Of an address, a file, a folder, a history or a walk's server it
/// looks a second time: see `Looks::look`. It is one line without its end, and has no control characters.
pub fn advice_on<R: Disk + Looks + AllocGlobal>(
    rt: &R,
    command: &Command,
    failure: &Failure,
) -> Option<String>
    ensures { IfSome result (λ said. IsAdvice (R.file_at rt.now) (R.sights rt.now) command.now failure.now (string_bytes said)) }
{
    match find(rt, command, failure) {
        Some(said) => Some(said),
        None => match explain_failure(rt.alloc(), failure) {
            Ok(said) => said,
            Err(_) => None,
        },
    }
}
