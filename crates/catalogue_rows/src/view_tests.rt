// Two threads that enter editions while a third publishes.

use crate::out_of_memory_tests::are_right;
use editions::Edition;
use fixtures::{CHAINED, open_profile, publish_empty};
use publisher::{Press, PublishError, Receipt, View, may_enter, meet};
use std::alloc::Global;
use std::sync::Wait;
use std::thread::{Threads, join};

// A view, and whether its numbers never fell and each edition was whole.
#[derive(Drop)]
struct Entries {
    view: View,
    are_kept: bool,
}

// The number of an edition that has its batches, its package and its tables, else 0.
fn number_of(edition: &Edition) -> u64 {
    let has_batches = edition.batches().len() as u64 == edition.number();
    let has_package = edition.catalogue().package("demo-1.0-2.0.bin").is_some();
    if has_batches && has_package && edition.tables().len() == 4 {
        edition.number()
    } else {
        0
    }
}

// Enters once: the view, and the number of the edition; 0 if there was none or it wasn't whole.
fn enter(view: View) -> (View, u64) {
    match view.enter() {
        Ok(entered) => {
            let number = number_of(entered.edition());
            (entered.leave(), number)
        }
        Err(view) => (view, 0),
    }
}

fn enter_often(view: View, times: u32) -> Entries {
    let mut view = view;
    let mut last = 1;
    let mut are_kept = true;
    for _entry in 0..times {
        let (back, number) = enter(view);
        view = back;
        are_kept = are_kept && last <= number;
        last = number;
    }
    Entries { view, are_kept }
}

// Publishes so many empty batches in turn: the last receipt.
fn publish_often<R: Threads + Sync + Wait>(
    rt: &R,
    alloc: Global,
    press: &mut Press,
    times: u64,
) -> Option<Receipt> {
    let mut last = None;
    for base in 1..=times {
        last = publish_empty(rt, alloc, press, base).ok();
    }
    last
}

// What two views come to while another thread publishes 100 times.
fn run<R: Threads + Wait + Sync>(
    rt: &R,
    alloc: Global,
    press: &mut Press,
    one: View,
    two: View,
) -> (Option<Receipt>, (Entries, Entries)) {
    join(
        rt,
        move || publish_often(rt, alloc, press, 100),
        move || {
            join(
                rt,
                move || enter_often(one, 1000),
                move || enter_often(two, 1000),
            )
        },
    )
}

// Whether a view may enter what the press shows.
fn is_let_in(press: &Press, view: View) -> bool {
    match press.receipt() {
        Ok(left) => may_enter(view, &left),
        Err(_) => false,
    }
}

// Whether a view that learns a receipt and enters once more meets the press at 101, and may enter that.
fn is_met(press: &Press, entries: Entries, receipt: &Receipt) -> bool {
    let Entries { view, are_kept } = entries;
    let mut view = view;
    view.learn(receipt);
    let (view, number) = enter(view);
    let (view, numbers) = meet(press, view);
    are_kept && number == 101 && numbers == Some((101, 101)) && is_let_in(press, view)
}

// Whether two views of a press keep their numbers and find whole editions, and meet it at 101.
fn are_met<R: Threads + Wait + Sync>(
    rt: &R,
    alloc: Global,
    press: &mut Press,
    views: Vec<View>,
) -> bool {
    let mut views = views;
    let (Some(one), Some(two)) = (views.pop(), views.pop()) else {
        return false;
    };
    let (receipt, (first, second)) = run(rt, alloc, press, one, two);
    match receipt {
        Some(receipt) => { is_met(press, first, &receipt) && is_met(press, second, &receipt) }
        None => false,
    }
}

fn rises<R: Threads + Wait + Sync>(rt: &R, alloc: Global) -> bool {
    let Ok((press, views)) = open_profile(rt, alloc, CHAINED, 2) else {
        return false;
    };
    let mut press = press;
    let are_met = are_met(rt, alloc, &mut press, views);
    press.end(rt);
    are_met
}

// rule: Beginning of a history
// rule: History of the published edition
// rule: Entry of a view
// rule: Learnt history
// rule: Meeting of a press and a view
// rule: Opening
#[test]
fn numbers_never_fall_while_another_thread_publishes(rt: HostRuntime) {
    assert!(rt; rises(&rt, rt.alloc()));
}

// Whether a batch on the first edition is stale, since the second one is published; `None` if memory ran out.
fn is_stale<R: Threads + Wait>(rt: &R, alloc: Global, press: &mut Press) -> Option<bool> {
    match publish_empty(rt, alloc, press, 1) {
        Err(PublishError::Stale(now)) => Some(now.edition() == 2),
        Err(PublishError::Memory) => None,
        _ => Some(false),
    }
}

// Whether a view that learns the receipt of the second edition meets the press at 2.
fn learns(press: &Press, view: View, receipt: &Receipt) -> bool {
    let mut view = view;
    view.learn(receipt);
    let (view, number) = enter(view);
    let (_view, numbers) = meet(press, view);
    receipt.edition() == 2 && number == 2 && numbers == Some((2, 2))
}

// Whether the second edition is published once, and learnt; `None` if memory ran out, and the first one is published then.
fn publishes<R: Threads + Wait>(
    rt: &R,
    alloc: Global,
    press: &mut Press,
    view: View,
) -> Option<bool> {
    match publish_empty(rt, alloc, press, 1) {
        Ok(receipt) => Some(is_stale(rt, alloc, press)? && learns(press, view, &receipt)),
        Err(PublishError::Memory) if press.edition().number() == 1 => None,
        Err(_) => Some(false),
    }
}

fn publishes_second<R: Threads + Wait>(rt: &R, alloc: Global) -> Option<bool> {
    let (press, views) = open_profile(rt, alloc, CHAINED, 1).ok()?;
    let mut press = press;
    let mut views = views;
    let is_published = match views.pop() {
        Some(view) => publishes(rt, alloc, &mut press, view),
        None => Some(false),
    };
    press.end(rt);
    is_published
}

// rule: Learnt history
// rule: Meeting of a press and a view
// rule: Publishing
// rule: Stale base
#[test]
fn publish_without_memory(rt: HostRuntime) {
    let first = publishes_second(&rt, rt.alloc());
    assert!(rt; are_right(first, publishes_second(&rt, rt.alloc())));
}
