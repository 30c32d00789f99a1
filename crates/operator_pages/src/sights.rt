//! What is seen of the releases of an app.

ghost use Rattle.std.specs.Prelude.{◌≡◌, ◌++◌, OnOk, string_bytes};
ghost use Rattle.operator_pages.specs.Sights.{drawing_part, others_note, sight_part, stuck_list, stuck_part, stuck_row, stuck_rows, stuck_table};

use crate::headings::{
    DRAWING, DRAWING_END, NO_DRAWING, NO_STUCK, STUCK, TABLE_END, UNKNOWN_STUCK,
};
use crate::html::{push_cell, push_name_cell};
use std::alloc::AllocError;
use std::fmt::Write;
use values::{Items, Text};

/// Clients who are stuck at a release.
pub struct StuckClients {
    /// The version of the release.
    pub version: Text,
    /// Who they are.
    pub clients: Text,
    /// Why they are stuck.
    pub reason: Text,
}

// Written out, so that no caller proves again how each part is dropped.
impl Drop for StuckClients {
    fn drop(self) {
        let StuckClients {
            version: _,
            clients: _,
            reason: _,
        } = self;
    }
}

/// The stuck clients of an app.
pub struct StuckList {
    /// The first ones.
    pub first: Items<StuckClients>,
    /// How many there are beside these.
    pub others: usize,
}

// Written out, so that no caller proves again how each part is dropped.
impl Drop for StuckList {
    fn drop(self) {
        let StuckList {
            first: _,
            others: _,
        } = self;
    }
}

/// What is seen of the releases of an app.
pub struct AppSight {
    /// The stuck clients, `None` if they weren't looked for.
    pub stuck: Option<StuckList>,
    /// The picture of the releases, as an SVG image; `None` if they weren't drawn.
    pub drawing: Option<Text>,
}

// Written out, so that no caller proves again how each part is dropped.
impl Drop for AppSight {
    fn drop(self) {
        let AppSight {
            stuck: _,
            drawing: _,
        } = self;
    }
}

// rule: Row of stuck clients
#[tactic(auto, unfolding(crate::specs::Sights::stuck_row))]
fn push_stuck_row(text: &mut String, stuck: &StuckClients) -> Result<(), AllocError>
    ensures { OnOk result (string_bytes text.new ≡ string_bytes text.old ++ stuck_row stuck.now) }
{
    text.push_str("<tr>")?;
    push_name_cell(text, stuck.version.as_str())?;
    push_cell(text, stuck.clients.as_str())?;
    push_cell(text, stuck.reason.as_str())?;
    text.push_str("</tr>\n")
}

fn push_stuck_rows(text: &mut String, stuck: &[StuckClients]) -> Result<(), AllocError>
    ensures { OnOk result (string_bytes text.new ≡ string_bytes text.old ++ stuck_rows stuck.now) }
{
    for one in stuck {
        push_stuck_row(text, one)?;
    }
    Ok(())
}

// Adds how many stuck clients have no row, if there are any.
#[tactic(auto, unfolding(crate::specs::Sights::others_note))]
fn push_others(text: &mut String, others: usize) -> Result<(), AllocError>
    ensures { OnOk result (string_bytes text.new ≡ string_bytes text.old ++ others_note others) }
{
    if others == 0 {
        return Ok(());
    }
    write!(
        text,
        "<p class=\"note\">And {others} more: <code>omaha review</code> prints all.</p>\n"
    )
}

#[tactic(auto, unfolding(crate::specs::Sights::stuck_table))]
fn push_stuck_table(text: &mut String, stuck: &[StuckClients]) -> Result<(), AllocError>
    ensures { OnOk result (string_bytes text.new ≡ string_bytes text.old ++ stuck_table stuck.now) }
{
    text.push_str(STUCK)?;
    push_stuck_rows(text, stuck)?;
    text.push_str(TABLE_END)
}

// Adds the stuck clients, or that there are none.
#[tactic(auto, unfolding(crate::specs::Sights::stuck_list))]
fn push_stuck_list(text: &mut String, list: &StuckList) -> Result<(), AllocError>
    ensures { OnOk result (string_bytes text.new ≡ string_bytes text.old ++ stuck_list list.now) }
{
    if list.first.len() == 0 {
        return text.push_str(NO_STUCK);
    }
    push_stuck_table(text, list.first.as_slice())?;
    push_others(text, list.others)
}

// Adds the stuck clients, or that they weren't looked for.
#[tactic(auto, unfolding(crate::specs::Sights::stuck_part))]
fn push_stuck(text: &mut String, stuck: &Option<StuckList>) -> Result<(), AllocError>
    ensures { OnOk result (string_bytes text.new ≡ string_bytes text.old ++ stuck_part stuck.now) }
{
    match stuck {
        None => text.push_str(UNKNOWN_STUCK),
        Some(list) => push_stuck_list(text, list),
    }
}

// Adds the picture as it is: its writer has escaped each string in it.
#[tactic(auto, unfolding(crate::specs::Sights::drawing_part))]
fn push_drawing(text: &mut String, drawing: &Option<Text>) -> Result<(), AllocError>
    ensures { OnOk result (string_bytes text.new ≡ string_bytes text.old ++ drawing_part drawing.now) }
{
    match drawing {
        None => text.push_str(NO_DRAWING),
        Some(image) => {
            text.push_str(DRAWING)?;
            text.push_str(image.as_str())?;
            text.push_str(DRAWING_END)
        }
    }
}

// rule: Sight of an app
/// Adds what is seen of the releases of an app: the stuck clients, and the picture.
#[tactic(auto, unfolding(crate::specs::Sights::sight_part))]
pub(crate) fn push_sight(text: &mut String, sight: &AppSight) -> Result<(), AllocError>
    ensures { OnOk result (string_bytes text.new ≡ string_bytes text.old ++ sight_part sight.now) }
{
    push_stuck(text, &sight.stuck)?;
    push_drawing(text, &sight.drawing)
}
