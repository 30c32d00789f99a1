ghost use Rattle.std.specs.Prelude.{◌≡◌};
ghost use Rattle.std.specs.Option.{option_copied};
ghost use Rattle.http_wire.specs.Targets.{before, package_in, path_in};

// The bytes before the first one that is the mark, or all.
pub(crate) fn before(bytes: &[u8], mark: u8) -> &[u8]
    ensures { result.now ≡ before mark bytes.now }
{
    for end in 0..bytes.len() {
        if bytes[end] == mark {
            return &bytes[..end];
        }
    }
    bytes
}

// rule: Path of a target
/// Returns the path of a target, which is the bytes before its first `?`.
pub fn path_of(target: &[u8]) -> &[u8]
    ensures { result.now ≡ path_in target.now }
{
    before(target, b'?')
}

// rule: Path of a package
/// Returns the name in the path of a package, or `None` if the path isn't below `/p/`.
#[tactic(auto, unfolding(crate::specs::Targets::package_in))]
pub fn package_name(path: &[u8]) -> Option<&[u8]>
    ensures { option_copied result ≡ package_in path.now }
{
    if path.len() >= 3 && &path[..3] == b"/p/".as_slice() {
        Some(&path[3..])
    } else {
        None
    }
}
