// How long the calls of a tile table take while 64 requests stand, at two lanes to an approach and a buffer of 4: times
// on standard error, what was counted on standard output.
#![tactic(auto)]

mod dice;
mod timing;
mod traffic;

use anyhow::Context;
use dice::Dice;
use grid::junction::Junction;
use policy::policy::Policy;
use reservation::request::Request;
use std::time::Instant;
use tile_table::table::TileTable;
use timing::Spent;
use traffic::{fill, request};

// A table on which 64 stand, the soonest entering at the tick `nearest`, and what stands there.
fn full_table(rt: &HostRuntime, nearest: u32) -> anyhow::Result<(TileTable, Vec<Request>)> {
    let junction = Junction::new(2, 4).ok().context("no such junction")?;
    let mut table = TileTable::new(rt.alloc(), junction)?;
    let mut standing = Vec::new(rt.alloc());
    fill(&mut table, nearest, &mut standing)?;
    Ok((table, standing))
}

// Asks for all, and says how many were granted.
fn ask_all(table: &mut TileTable, requests: &[Request]) -> usize {
    requests.iter().filter(|one| table.ask(one).is_ok()).count()
}

// Releases all, and says how many stood.
fn release_all(table: &mut TileTable, requests: &[Request]) -> usize {
    requests
        .iter()
        .filter(|one| table.release(one.name()))
        .count()
}

fn advance_often(table: &mut TileTable, times: u32) -> usize {
    (0..times).filter(|_| table.advance().is_ok()).count()
}

// Requests of other vehicles, which come from everywhere and find the table full.
fn strangers(rt: &HostRuntime) -> anyhow::Result<Vec<Request>> {
    let mut dice = Dice::new();
    let requests = (0..4096).map(|_| {
        let vehicle = 100 + dice.roll(900);
        request(vehicle, 1, 5 + dice.roll(100))
    });
    Ok(requests.collect(rt.alloc())?)
}

// Asks that are refused, nearly all for a clash.
fn time_refusals(rt: &HostRuntime) -> anyhow::Result<()> {
    let (mut table, standing) = full_table(rt, 5)?;
    let count = standing.len();
    println!(rt; "{count} requests stand")?;
    let requests = strangers(rt)?;
    let mut spent = Spent::none();
    for _ in 0..50u32 {
        let start = Instant::now(rt)?;
        let granted = ask_all(&mut table, requests.as_slice());
        spent.add(rt, start, requests.len().saturating_sub(granted))?;
    }
    spent.report(rt, "ask that are refused")
}

// Some of the standing requests are released and granted again, in turn.
fn time_turns(rt: &HostRuntime) -> anyhow::Result<()> {
    let (mut table, standing) = full_table(rt, 5)?;
    let mut releases = Spent::none();
    let mut grants = Spent::none();
    for some in standing.chunks(8).cycle().take(16_000) {
        let start = Instant::now(rt)?;
        let released = release_all(&mut table, some);
        releases.add(rt, start, released)?;
        let start = Instant::now(rt)?;
        let granted = ask_all(&mut table, some);
        grants.add(rt, start, granted)?;
    }
    releases.report(rt, "release")?;
    grants.report(rt, "ask that are granted")
}

// The clock goes on while nothing of what stands is over yet.
fn time_advances(rt: &HostRuntime) -> anyhow::Result<()> {
    let mut spent = Spent::none();
    for _ in 0..200u32 {
        let (mut table, _) = full_table(rt, 60)?;
        let start = Instant::now(rt)?;
        let passed = advance_often(&mut table, 60);
        spent.add(rt, start, passed)?;
    }
    spent.report(rt, "advance")
}

fn run(rt: &HostRuntime) -> anyhow::Result<()> {
    time_refusals(rt)?;
    time_turns(rt)?;
    time_advances(rt)
}

fn main(rt: HostRuntime) -> anyhow::Result<()> {
    run(&rt)
}
