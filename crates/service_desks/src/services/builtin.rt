// The catalogue that is built into the program, and its mirror.

ghost use Rattle.std.specs.Prelude.{◌≡◌, ◌∷◌, [], IfOk};
ghost use Rattle.service_desks.specs.Builtin.{added_app, added_release, builtin_batch, builtin_mirror, first_release, second_release, set_target};

use catalogue::{AddApp, AddRelease, Batch, Edit, Mirror, SetTarget};
use editions::{Edition, NextError};
use std::alloc::{AllocError, Global};
use values::Text;

fn release(
    alloc: Global,
    version: &str,
    name: &str,
    size: u64,
    sha256: &str,
) -> Result<Edit, AllocError>
    ensures { IfOk result (λ e. e ≡ added_release version.now name.now size sha256.now) }
{
    let app = Text::copy_of(alloc, "mini")?;
    let version = Text::copy_of(alloc, version)?;
    let name = Text::copy_of(alloc, name)?;
    let sha256 = Text::copy_of(alloc, sha256)?;
    Ok(Edit::AddRelease(AddRelease {
        app,
        version,
        name,
        size,
        sha256,
    }))
}

fn first_release(alloc: Global) -> Result<Edit, AllocError>
    ensures { IfOk result (λ e. e ≡ first_release) }
{
    let sha256 = "ba7816bf8f01cfea414140de5dae2223b00361a396177a9cb410ff61f20015ad";
    let edit = release(alloc, "1.0", "mini-1.0.bin", 3, sha256)?;
    Ok(edit)
}

fn second_release(alloc: Global) -> Result<Edit, AllocError>
    ensures { IfOk result (λ e. e ≡ second_release) }
{
    let sha256 = "248d6a61d20638b8e5c026930c3e6039a33ce45964ff2167f6ecedd419db06c1";
    let edit = release(alloc, "2.0", "mini-2.0.bin", 56, sha256)?;
    Ok(edit)
}

fn app(alloc: Global) -> Result<Edit, AllocError>
    ensures { IfOk result (λ e. e ≡ added_app) }
{
    let app = Text::copy_of(alloc, "mini")?;
    let default = Text::copy_of(alloc, "stable")?;
    Ok(Edit::AddApp(AddApp { app, default }))
}

fn target(alloc: Global) -> Result<Edit, AllocError>
    ensures { IfOk result (λ e. e ≡ set_target) }
{
    let app = Text::copy_of(alloc, "mini")?;
    let cohort = Text::copy_of(alloc, "stable")?;
    let target = Some(Text::copy_of(alloc, "2.0")?);
    let held = None;
    Ok(Edit::SetTarget(SetTarget {
        app,
        cohort,
        target,
        held,
    }))
}

fn batch(alloc: Global) -> Result<Batch, AllocError>
    ensures { IfOk result (λ b. b ≡ builtin_batch) }
{
    let mut edits = Vec::new(alloc);
    edits.push(app(alloc)?)?;
    edits.push(first_release(alloc)?)?;
    edits.push(second_release(alloc)?)?;
    edits.push(target(alloc)?)?;
    Ok(Batch::new(edits))
}

/// Makes the edition of the built-in catalogue; its one batch is always accepted.
pub(crate) fn builtin_edition(alloc: Global) -> Result<Edition, AllocError>
    ensures { IfOk result (λ edition. edition ≡ builtin_batch ∷ []) }
{
    match Edition::empty(alloc).next(batch(alloc)?) {
        Ok(edition) => Ok(edition),
        Err(NextError::Memory) => Err(AllocError),
        Err(NextError::Refused(_)) => unreachable!(),
        Err(NextError::HistoryFull) => unreachable!(),
    }
}

/// Makes the mirror of the built-in catalogue's packages.
pub(crate) fn builtin_mirror(alloc: Global) -> Result<Mirror, AllocError>
    ensures { IfOk result (λ mirror. mirror ≡ builtin_mirror) }
{
    let name = Text::copy_of(alloc, "m0")?;
    let codebase = Text::copy_of(alloc, "http://m0.example/p/")?;
    Ok(Mirror {
        name,
        codebase,
        budget: 1000000,
    })
}
