// A bureau's question: what does a junction lose that lets one vehicle through at a time? The same requests go to
// the bureau's own policy and to the tile table, each below the bureau's limit on length.
#![tactic(auto)]

use anyhow::Context;
use bureau::length_limit::Limit;
use bureau::one_at_a_time::OneAtATime;
use grid::junction::Junction;
use grid::kinds::{Approach, Body, Movement};
use layers::layer::Layer;
use policy::policy::Policy;
use refusal::kinds::{Denial, Reason};
use reservation::request::Request;
use std::alloc::Global;
use tile_table::table::TileTable;

// A vehicle at the line asks to turn right.
fn right_turn(vehicle: u32, approach: Approach, length: u32, entry: u32) -> Request {
    let body = Body {
        approach,
        movement: Movement::Right,
        lane: 0,
        length,
        speed: 4,
    };
    Request {
        vehicle,
        number: 1,
        body,
        distance: 0,
        entry,
    }
}

fn say(rt: &impl Print, who: &str, answer: Result<(), Denial>) -> anyhow::Result<()> {
    match answer {
        Ok(()) => println!(rt; "  {who}: may cross")?,
        Err(Denial::Clash(name)) => {
            let other = name.vehicle;
            println!(rt; "  {who}: has to wait for vehicle {other}")?
        }
        Err(Denial::Because(Reason::Free30)) => println!(rt; "  {who}: is too long")?,
        Err(Denial::Because(reason)) => {
            let number = reason.number();
            println!(rt; "  {who}: is refused with {number}")?
        }
    }
    Ok(())
}

fn study<P: Policy + Drop>(rt: &impl Print, kind: &str, below: P) -> anyhow::Result<()> {
    println!(rt; "{kind}, for vehicles of up to 24 units:")?;
    let mut policy = Layer::new(Limit::new(24), below);
    let car = right_turn(1, Approach::South, 10, 3);
    say(rt, "car 1 from the south at tick 3", policy.ask(&car))?;
    let car = right_turn(2, Approach::North, 10, 3);
    say(rt, "car 2 from the north at tick 3", policy.ask(&car))?;
    let car = right_turn(3, Approach::North, 10, 11);
    say(rt, "car 3 from the north at tick 11", policy.ask(&car))?;
    let train = right_turn(4, Approach::West, 30, 40);
    say(
        rt,
        "road train 4 from the west at tick 40",
        policy.ask(&train),
    )?;
    let count = policy.own.turned_away();
    println!(rt; "  turned away for their length: {count}")?;
    Ok(())
}

fn run(rt: &impl Print, heap: Global) -> anyhow::Result<()> {
    let junction = Junction::new(1, 1)
        .ok()
        .context("there is no such junction")?;
    study(rt, "one at a time", OneAtATime::new(heap, junction)?)?;
    study(rt, "tile table", TileTable::new(heap, junction)?)
}

fn main(rt: HostRuntime) -> anyhow::Result<()> {
    run(&rt, rt.alloc())
}
