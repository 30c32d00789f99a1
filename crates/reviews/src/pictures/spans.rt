//! Where the parts of an SVG image are.

ghost use Rattle.std.specs.Prelude.{◌≡◌};
ghost use Rattle.reviews.specs.Svg.{bow_of, bytes_end, bytes_row, end_of, is_downgrade, row_of, span_of, start_of};

use crate::pictures::arrows::Arrow;

/// How far down a release is.
pub(crate) fn row_of(release: usize) -> u128
    ensures { result ≡ row_of release }
{
    132 + 44 * (release as u128)
}

/// Whether a package leads down.
pub(crate) fn is_downgrade(arrow: &Arrow) -> bool
    ensures { result ≡ is_downgrade arrow.now }
{
    arrow.to < arrow.from
}

/// How far apart two releases are.
pub(crate) fn span_of(arrow: &Arrow) -> usize
    ensures { result ≡ span_of arrow.now }
{
    if arrow.from < arrow.to {
        arrow.to - arrow.from
    } else {
        arrow.from - arrow.to
    }
}

/// How far to the left an arrow's curve is drawn: downgrades to the left of all others and of their bytes.
pub(crate) fn bow_of(arrow: &Arrow) -> u128
    ensures { result ≡ bow_of arrow.now }
{
    let first = if is_downgrade(arrow) { 164 } else { 44 };
    first + 12 * (span_of(arrow) as u128)
}

/// How far to the left an arrow's bytes end: beside the middle of a downgrade, and beside the beginning of another curve.
pub(crate) fn bytes_end(arrow: &Arrow) -> u128
    ensures { result ≡ bytes_end arrow.now }
{
    if is_downgrade(arrow) {
        132 + 9 * (span_of(arrow) as u128)
    } else {
        54 + 3 * (span_of(arrow) as u128)
    }
}

/// How far down a package's curve begins.
pub(crate) fn start_of(arrow: &Arrow) -> u128
    ensures { result ≡ start_of arrow.now }
{
    if is_downgrade(arrow) {
        row_of(arrow.from) - 4
    } else {
        row_of(arrow.from) + 4
    }
}

/// How far down it ends.
pub(crate) fn end_of(arrow: &Arrow) -> u128
    ensures { result ≡ end_of arrow.now }
{
    if is_downgrade(arrow) {
        row_of(arrow.to) + 4
    } else {
        row_of(arrow.to) - 4
    }
}

/// How far down a package's bytes are written: beside the middle of a downgrade, where those of the same middle have rows of
/// their own, and below the release that another package starts at.
pub(crate) fn bytes_row(arrow: &Arrow) -> u128
    ensures { result ≡ bytes_row arrow.now }
{
    if is_downgrade(arrow) {
        (row_of(arrow.from) + row_of(arrow.to)) / 2 + 11 * (span_of(arrow) as u128 / 2 % 3) - 7
    } else {
        row_of(arrow.from) + 8 + 11 * (span_of(arrow) as u128 % 4)
    }
}
