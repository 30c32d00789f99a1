//! Sends an offer to a serializer.

ghost use Rattle.std.specs.Prelude.{None, OnOk, Some, option_map};
ghost use Rattle.serde_json.specs.Data.{array, object};
ghost use Rattle.serde_json.specs.Events.{SendsValue};
ghost use Rattle.omaha_json.specs.ReplyWriting.{address_data, addresses, hash_data, manifest_data, offer_data, package_members, packages_data, urls_data};
ghost use Rattle.omaha_json.specs.Sending.{SendsMember};

use crate::reply::{Offer, Part};
use crate::sending::{send_number, send_str, send_string};
use serde::Serializer;
use std::str;
use values::Text;

fn send_hash<S: Serializer>(out: &mut S, name: &str, part: &Part) -> Result<(), S::Error>
    ensures { OnOk result
        (SendsMember name.now (hash_data part.now) (S.written out.old) (S.written out.new)) }
{
    let mut digits = [0; 64];
    hex::encode_to_slice(part.hash, &mut digits).unwrap();
    send_str(out, name, str::from_utf8(&digits).unwrap())
}

fn send_full_package<S: Serializer>(out: &mut S, fp: &Text, full: &Part) -> Result<(), S::Error>
    ensures { OnOk result
        (SendsValue (object (package_members fp.now full.now None)) (S.written out.old) (S.written out.new)) }
{
    out.begin_map(Some(4))?;
    send_string(out, "fp", fp)?;
    send_hash(out, "hash_sha256", full)?;
    send_string(out, "name", &full.name)?;
    send_number(out, "size", full.size)?;
    out.end_map()
}

fn send_both_packages<S: Serializer>(
    out: &mut S,
    fp: &Text,
    full: &Part,
    diff: &Part,
) -> Result<(), S::Error>
    ensures { OnOk result
        (SendsValue (object (package_members fp.now full.now (Some diff.now))) (S.written out.old) (S.written out.new)) }
{
    out.begin_map(Some(7))?;
    send_string(out, "fp", fp)?;
    send_hash(out, "hash_sha256", full)?;
    send_hash(out, "hashdiff_sha256", diff)?;
    send_string(out, "name", &full.name)?;
    send_string(out, "namediff", &diff.name)?;
    send_number(out, "size", full.size)?;
    send_number(out, "sizediff", diff.size)?;
    out.end_map()
}

// rule: Offer
fn send_package<S: Serializer>(
    out: &mut S,
    fp: &Text,
    full: &Part,
    diff: Option<&Part>,
) -> Result<(), S::Error>
    ensures { OnOk result
        (SendsValue (object (package_members fp.now full.now (option_map (λ part. part.now) diff.entry)))
        (S.written out.old) (S.written out.new)) }
{
    match diff {
        None => send_full_package(out, fp, full),
        Some(diff) => send_both_packages(out, fp, full, diff),
    }
}

fn send_packages<S: Serializer>(out: &mut S, offer: &Offer) -> Result<(), S::Error>
    ensures { OnOk result
        (SendsValue (packages_data offer.now) (S.written out.old) (S.written out.new)) }
{
    out.begin_map(Some(1))?;
    out.key("package")?;
    out.begin_seq(Some(1))?;
    send_package(out, &offer.fp, &offer.full, offer.diff.as_ref())?;
    out.end_seq()?;
    out.end_map()
}

fn send_manifest<S: Serializer>(out: &mut S, offer: &Offer) -> Result<(), S::Error>
    ensures { OnOk result
        (SendsValue (manifest_data offer.now) (S.written out.old) (S.written out.new)) }
{
    out.begin_map(Some(2))?;
    out.key("packages")?;
    send_packages(out, offer)?;
    send_string(out, "version", &offer.version)?;
    out.end_map()
}

fn send_address<S: Serializer>(out: &mut S, name: &str, part: &Part) -> Result<(), S::Error>
    ensures { OnOk result
        (SendsValue (address_data name.now part.now) (S.written out.old) (S.written out.new)) }
{
    out.begin_map(Some(1))?;
    send_string(out, name, &part.codebase)?;
    out.end_map()
}

fn send_full_address<S: Serializer>(out: &mut S, full: &Part) -> Result<(), S::Error>
    ensures { OnOk result
        (SendsValue (array (addresses full.now None)) (S.written out.old) (S.written out.new)) }
{
    out.begin_seq(Some(1))?;
    send_address(out, "codebase", full)?;
    out.end_seq()
}

fn send_both_addresses<S: Serializer>(out: &mut S, full: &Part, diff: &Part) -> Result<(), S::Error>
    ensures { OnOk result
        (SendsValue (array (addresses full.now (Some diff.now))) (S.written out.old) (S.written out.new)) }
{
    out.begin_seq(Some(2))?;
    send_address(out, "codebase", full)?;
    send_address(out, "codebasediff", diff)?;
    out.end_seq()
}

fn send_addresses<S: Serializer>(
    out: &mut S,
    full: &Part,
    diff: Option<&Part>,
) -> Result<(), S::Error>
    ensures { OnOk result
        (SendsValue (array (addresses full.now (option_map (λ part. part.now) diff.entry)))
        (S.written out.old) (S.written out.new)) }
{
    match diff {
        None => send_full_address(out, full),
        Some(diff) => send_both_addresses(out, full, diff),
    }
}

fn send_urls<S: Serializer>(out: &mut S, offer: &Offer) -> Result<(), S::Error>
    ensures { OnOk result
        (SendsValue (urls_data offer.now) (S.written out.old) (S.written out.new)) }
{
    out.begin_map(Some(1))?;
    out.key("url")?;
    send_addresses(out, &offer.full, offer.diff.as_ref())?;
    out.end_map()
}

/// Sends an offer.
pub(crate) fn send_offer<S: Serializer>(out: &mut S, offer: &Offer) -> Result<(), S::Error>
    ensures { OnOk result
        (SendsValue (offer_data offer.now) (S.written out.old) (S.written out.new)) }
{
    out.begin_map(Some(3))?;
    out.key("manifest")?;
    send_manifest(out, offer)?;
    send_str(out, "status", "ok")?;
    out.key("urls")?;
    send_urls(out, offer)?;
    out.end_map()
}
