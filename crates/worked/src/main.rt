// The junctions worked by hand, executed by calls of the library.
#![tactic(auto)]

mod list;

use anyhow::Context;
use book::book::LockBook;
use grid::junction::Junction;
use grid::kinds::{Approach, Body, Movement};
use grid::path::Path;
use layers::stop_line::StopLine;
use policy::policy::Policy;
use refusal::kinds::{Denial, Refusal};
use reservation::entries::check_entry;
use reservation::footprint::Footprint;
use reservation::request::Request;
use tile_table::table::TileTable;

// A vehicle of length 10 and speed 4 in lane 0.
fn car(approach: Approach, movement: Movement) -> Body {
    Body {
        approach,
        movement,
        lane: 0,
        length: 10,
        speed: 4,
    }
}

// A request of a vehicle at a distance, to enter at the tick.
fn request(vehicle: u32, body: Body, distance: u32, entry: u32) -> Request {
    Request {
        vehicle,
        number: 1,
        body,
        distance,
        entry,
    }
}

// Its footprint when it enters at the tick.
fn entering(junction: Junction, body: Body, entry: u32) -> anyhow::Result<Footprint> {
    Footprint::of(junction, &request(1, body, 8, entry)).context("the request is out of range")
}

fn right_turns(rt: &HostRuntime, junction: Junction) -> anyhow::Result<()> {
    let south = entering(junction, car(Approach::South, Movement::Right), 3)?;
    let north = entering(junction, car(Approach::North, Movement::Right), 3)?;
    let west = entering(junction, car(Approach::West, Movement::Through), 3)?;
    let shared = a_or_no(south.whole.meets(north.whole));
    println!(rt; "S right and N right share {shared} tile")?;
    let shared = a_or_no(south.whole.meets(west.whole));
    println!(rt; "S right and W through share {shared} tile")?;
    Ok(())
}

fn a_or_no(there: bool) -> &'static str {
    if there { "a" } else { "no" }
}

// The answer on two requests of one junction.
fn told(answer: Option<bool>) -> anyhow::Result<bool> {
    answer.context("the requests are not of one junction")
}

fn cells(
    rt: &HostRuntime,
    junction: Junction,
    approach: Approach,
    entry: u32,
) -> anyhow::Result<()> {
    let first = entering(junction, car(Approach::South, Movement::Through), 3)?;
    let second = entering(junction, car(approach, Movement::Through), entry)?;
    let shared = a_or_no(told(first.shares_cell(&second))?);
    println!(rt;
        "S through entering at 3 and {approach} through entering at {entry} share {shared} cell"
    )?;
    Ok(())
}

fn paths(rt: &HostRuntime, junction: Junction, entry: u32) -> anyhow::Result<()> {
    let body = car(Approach::South, Movement::Through);
    let first = entering(junction, body, 3)?;
    let second = entering(junction, body, entry)?;
    let meet = if told(first.locks(&second))? {
        "meet"
    } else {
        "do not meet"
    };
    println!(rt; "the paths and spans of S through entering at 3 and at {entry} {meet}")?;
    Ok(())
}

// Prints what a policy answered.
fn say(rt: &HostRuntime, asked: &str, answer: Result<(), Denial>) -> anyhow::Result<()> {
    match answer {
        Ok(()) => println!(rt; "{asked}: granted")?,
        Err(Denial::Because(reason)) => {
            let number = reason.number();
            println!(rt; "{asked}: refused with {number}")?
        }
        Err(Denial::Clash(name)) => {
            let vehicle = name.vehicle;
            let number = name.number;
            println!(rt;
                "{asked}: refused with 34, request {number} of vehicle {vehicle} is in the way"
            )?
        }
    }
    Ok(())
}

// A new policy is asked for a vehicle from the south that enters at 3, and then for another.
fn pair<P: Policy + Drop>(
    rt: &HostRuntime,
    kind: &str,
    mut policy: P,
    approach: Approach,
    entry: u32,
) -> anyhow::Result<()> {
    let first = car(Approach::South, Movement::Through);
    let asked = format!(in rt.alloc(); "a new {kind} is asked for S through entering at 3")?;
    say(rt, asked.as_str(), policy.ask(&request(1, first, 8, 3)))?;
    let second = car(approach, Movement::Through);
    let asked = format!(in rt.alloc(); "then for {approach} through entering at {entry}")?;
    say(
        rt,
        asked.as_str(),
        policy.ask(&request(2, second, 8, entry)),
    )
}

fn tile_pair(
    rt: &HostRuntime,
    junction: Junction,
    approach: Approach,
    entry: u32,
) -> anyhow::Result<()> {
    let table = TileTable::new(rt.alloc(), junction)?;
    pair(rt, "tile table", table, approach, entry)
}

fn book_pair(rt: &HostRuntime, junction: Junction, entry: u32) -> anyhow::Result<()> {
    let book = LockBook::new(rt.alloc(), junction)?;
    pair(rt, "lock book", book, Approach::South, entry)
}

// Stop line over a lock book is asked from a distance.
fn stop_line(rt: &HostRuntime, junction: Junction, distance: u32) -> anyhow::Result<()> {
    let mut layer = StopLine::over(LockBook::new(rt.alloc(), junction)?);
    let body = car(Approach::South, Movement::Through);
    let asked = format!(in rt.alloc(); "Stop line is asked from {distance} units away")?;
    say(
        rt,
        asked.as_str(),
        layer.ask(&request(1, body, distance, 3)),
    )
}

fn entry_row(rt: &HostRuntime, junction: Junction, entry: u32) -> anyhow::Result<()> {
    let body = car(Approach::South, Movement::Through);
    let path = Path::of(junction, body).context("the body does not fit")?;
    match check_entry(&path, 0, 8, entry) {
        Ok(()) => println!(rt; "at clock 0, 8 units away, entry {entry} may be asked for")?,
        Err(fault) => {
            let number = Refusal::from(fault).number();
            println!(rt; "at clock 0, 8 units away, entry {entry} is refused with {number}")?
        }
    }
    Ok(())
}

fn run(rt: &HostRuntime) -> anyhow::Result<()> {
    let junction = Junction::new(1, 1).ok().context("no such junction")?;
    right_turns(rt, junction)?;
    cells(rt, junction, Approach::East, 12)?;
    cells(rt, junction, Approach::East, 13)?;
    cells(rt, junction, Approach::South, 9)?;
    cells(rt, junction, Approach::South, 10)?;
    tile_pair(rt, junction, Approach::East, 12)?;
    tile_pair(rt, junction, Approach::East, 13)?;
    tile_pair(rt, junction, Approach::South, 9)?;
    tile_pair(rt, junction, Approach::South, 10)?;
    paths(rt, junction, 12)?;
    paths(rt, junction, 13)?;
    book_pair(rt, junction, 12)?;
    book_pair(rt, junction, 13)?;
    stop_line(rt, junction, 0)?;
    stop_line(rt, junction, 1)?;
    for entry in [2, 3, 119, 120] {
        entry_row(rt, junction, entry)?;
    }
    let count = list::statements();
    println!(rt; "{count} statements on junctions worked by hand are proved of the rules")?;
    Ok(())
}

fn main(rt: HostRuntime) -> anyhow::Result<()> {
    run(&rt)
}
