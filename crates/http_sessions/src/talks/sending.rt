// A package that is sent block by block.

ghost use Rattle.std.specs.Prelude.{◌≡◌, ◌≤◌, [], false, true, length, if◌then◌else◌};
ghost use Rattle.http_sessions.specs.Sends.{Sends};
ghost use Rattle.http_sessions.specs.Talks.{IsSending, pending};
ghost use Rattle.http_sessions.specs.declared.talks.talk.Stage.TheVariants as stage;

use crate::talks::talk::{Sending, Stage, Talk};
use http_desks::{BLOCK, NextBlock, Packages};
use std::alloc::Global;
use std::mem;

// Makes the bytes a block, whatever is in it, and returns whether there was memory for it; if not, there are none.
fn make_block(alloc: Global, made: &mut Vec<u8>) -> bool
    ensures block { result ≡ true → length made.new.items ≡ 65536 }
    ensures none { result ≡ false → made.new.items ≡ [] }
{
    if made.len() == BLOCK as usize {
        return true;
    }
    match vec![in alloc; 0; BLOCK as usize] {
        Ok(block) => {
            *made = block;
            true
        }
        Err(_) => {
            made.clear();
            false
        }
    }
}

// How far the session is after the last block of a package.
fn stage_after(closes: bool) -> Stage
    ensures { result ≡ (if closes then stage.Over else stage.Busy) }
{
    if closes { Stage::Over } else { Stage::Busy }
}

// rule: Block of a package
// Makes the next block of the package that is sent, once the one before is sent; after the last one the session goes on
// or ends. A package that is not whole ends it.
pub(crate) fn send_on<Z: Packages>(alloc: Global, site: &Z, talk: &mut Talk)
    requires none { pending talk.old ≡ [] }
    requires sends { IsSending talk.old.stage }
    ensures sends { Sends (Z.sizes site.now) (Z.reads site.now) talk.old talk.new }
    ensures block { length (pending talk.new) ≤ 65536 }
{
    let old = mem::replace(&mut talk.stage, Stage::Lost);
    talk.sent = 0;
    let has_block = make_block(alloc, &mut talk.made);
    let Stage::Sends(sending) = old else {
        talk.made.clear();
        return;
    };
    if !has_block {
        return;
    }
    let Sending {
        transfer,
        name,
        declared,
        closes,
    } = sending;
    match transfer.next(site, &name, &declared.hash, &mut talk.made) {
        NextBlock::Full(next) => {
            talk.stage = Stage::Sends(Sending {
                transfer: next,
                name,
                declared,
                closes,
            });
        }
        NextBlock::Last(count) => {
            talk.made.truncate(count);
            talk.stage = stage_after(closes);
        }
        NextBlock::Cut => {
            talk.made.clear();
            talk.stage = Stage::Over;
        }
    }
}
