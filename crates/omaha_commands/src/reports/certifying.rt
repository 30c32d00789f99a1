//! The certificate of a track.

ghost use Rattle.std.specs.Prelude.{◌≡◌, IfErr, IfOk, Ok, Err, Some};
ghost use Rattle.cohorts.specs.declared.pin.Pin.TheVariants as pin;
ghost use Rattle.payload_graph.specs.Net.{net_among};
ghost use Rattle.editions.specs.Editions.{content_of};
ghost use Rattle.omaha_commands.specs.Certificates.{Certifies, IsCertificateOf};

use crate::reports::names::key_named;
use crate::reports::tables::table_of;
use catalogue::Catalogue;
use certificates::{Fault, write_prices};
use cohorts::TrackNames;
use editions::Edition;
use payload_graph::TrackKey;
use price_cert::Certified;
use std::alloc::{AllocError, Global};
use values::ReadError;

// The certificate of a key's table.
fn write_table(
    alloc: Global,
    catalogue: &Catalogue,
    key: &TrackKey,
    table: &Certified,
) -> Result<Vec<u8>, AllocError>
    requires net { net_among catalogue.now key.now ≡ Some table.now.net }
    requires pin { table.now.net.key.pin ≡ pin.Any }
    ensures { IfOk result (λ text. IsCertificateOf catalogue.now table.now.net text.items) }
{
    let _certified = table.rows();
    let prices = table.copy()?.into_prices();
    write_prices(alloc, catalogue, &prices)
}

// rule: Certificate of a named track
/// Writes the certificate of the track that the names choose.
///
/// Fails with `NoTrack` if the edition has no table of such a track.
pub fn certify(
    alloc: Global,
    edition: &Edition,
    names: &TrackNames,
) -> Result<Vec<u8>, ReadError<Fault>>
    ensures ok { IfOk result (λ text. Certifies (content_of edition.now) names.now (Ok text.items)) }
    ensures err { IfErr result (λ error. Certifies (content_of edition.now) names.now (Err error)) }
{
    let Some(key) = key_named(edition.catalogue(), names) else {
        return Err(ReadError::Fault(Fault::NoTrack));
    };
    let Some(table) = table_of(edition, &key) else {
        return Err(ReadError::Fault(Fault::NoTrack));
    };
    Ok(write_table(alloc, edition.catalogue(), &key, table)?)
}
