//! Fingerprints of releases: `1.` and the 64 lower-case hexadecimal digits of a hash.

ghost use Rattle.std.specs.Prelude.{◌≡◌, ◌<◌, IfSome, Some, length, position};
ghost use Rattle.hex.specs.Hex.{encode_lower};
ghost use Rattle.catalogue.specs.Lookups.{releases_at};
ghost use Rattle.payload_graph.specs.Places.{has_fingerprint, IsHashOf};

use catalogue::{Catalogue, Release, Version};
use hex::FromHex;

fn encode_digits(hash: [u8; 32]) -> [u8; 64]
    ensures { result ≡ encode_lower hash }
{
    let mut digits = [0; 64];
    hex::encode_to_slice(hash, &mut digits).unwrap();
    digits
}

// Reads the hash of a fingerprint: `1.` and 64 lower-case hexadecimal digits.
fn parse_fingerprint(fp: &str) -> Option<[u8; 32]>
    ensures { IsHashOf fp.now result }
{
    let digits = fp.as_bytes().strip_prefix(b"1.")?;
    let hash = <[u8; 32] as FromHex>::from_hex(digits).ok()?;
    if digits != encode_digits(hash).as_slice() {
        return None;
    }
    Some(hash)
}

// Whether a release has a fingerprint. It compares digits, and decodes none.
fn is_of(fp: &str, release: &Release) -> bool
    ensures { result ≡ has_fingerprint fp.now release.now }
{
    match fp.as_bytes().strip_prefix(b"1.") {
        Some(digits) => digits == encode_digits(release.hash).as_slice(),
        None => false,
    }
}

// Finds the index of the release of the client's version, if it has the fingerprint.
fn find_installed(catalogue: &Catalogue, app: usize, fp: &str, version: &Version) -> Option<usize>
    requires { app < length catalogue.now }
    ensures { IfSome result (λ index. position (has_fingerprint fp.now) (releases_at catalogue.now app) ≡ Some index) }
{
    catalogue.validity();
    let index = catalogue.find_release(app, version)?;
    let release = catalogue.releases(app).get(index)?;
    if is_of(fp, release) {
        Some(index)
    } else {
        None
    }
}

/// Finds the index of the release that has a fingerprint, whatever the client's version.
///
/// The release of that version is looked at first: mostly it is the one.
pub(crate) fn find_fingerprint(
    catalogue: &Catalogue,
    app: usize,
    fp: &str,
    version: &Version,
) -> Option<usize>
    requires { app < length catalogue.now }
    ensures { result ≡ position (has_fingerprint fp.now) (releases_at catalogue.now app) }
{
    catalogue.validity();
    if let Some(index) = find_installed(catalogue, app, fp, version) {
        return Some(index);
    }
    let hash = parse_fingerprint(fp)?;
    catalogue.find_hash(app, &hash)
}
