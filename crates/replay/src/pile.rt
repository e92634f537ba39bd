// The six piles of policies that a script can name.
use super::answer::Told;
use super::command::PolicyCall;
use super::memory::Memory;
use super::stop::Stop;
use super::telling::Telling;
use book::book::LockBook;
use grid::junction::Junction;
use history::played::{Played, Unplayed};
use history::replay::{go_on, replay};
use layers::distance::Distance;
use layers::stop_line::StopLine;
use policy::policy::Policy;
use refusal::kinds::Refusal;
use reservation::request::Request;
use run::call::{Answer, Call};
use run::run::Run;
use std::alloc::{AllocError, Global};
use tile_table::table::TileTable;

#[derive(Clone, Copy)]
pub(crate) enum Kind {
    Tiles,
    Locks,
    DistanceTiles,
    StopLocks,
    StopDistanceTiles,
    DistanceStopLocks,
}

#[derive(Drop)]
pub(crate) enum Pile {
    Tiles(TileTable),
    Locks(LockBook),
    DistanceTiles(Distance<TileTable>),
    StopLocks(StopLine<LockBook>),
    StopDistanceTiles(StopLine<Distance<TileTable>>),
    DistanceStopLocks(Distance<StopLine<LockBook>>),
}

// One call of any policy.
fn perform<P: Policy>(policy: &mut P, call: &PolicyCall) -> Result<Told, Refusal> {
    Ok(match call {
        PolicyCall::Book(request) => {
            policy.ask(request)?;
            Told::Accepted
        }
        PolicyCall::Release(name) => Told::Released(policy.release(*name)),
        PolicyCall::Advance => {
            policy.advance()?;
            Told::Accepted
        }
        PolicyCall::Find(name) => Told::Entry(policy.find(*name)),
        PolicyCall::At(i) => Told::Standing(policy.at(*i)),
    })
}

// The same code for the policy of any pile. A `dyn Policy` would not do: it brings none of the laws of a policy's type, on
// which `replay` rests.
macro_rules! with_policy {
    ($pile:expr, $policy:ident => $code:expr) => {
        match $pile {
            Pile::Tiles($policy) => $code,
            Pile::Locks($policy) => $code,
            Pile::DistanceTiles($policy) => $code,
            Pile::StopLocks($policy) => $code,
            Pile::StopDistanceTiles($policy) => $code,
            Pile::DistanceStopLocks($policy) => $code,
        }
    };
}

impl Pile {
    pub(crate) fn new(heap: Global, junction: Junction, kind: Kind) -> Result<Pile, AllocError> {
        Ok(match kind {
            Kind::Tiles => Pile::Tiles(TileTable::new(heap, junction)?),
            Kind::Locks => Pile::Locks(LockBook::new(heap, junction)?),
            Kind::DistanceTiles => {
                Pile::DistanceTiles(Distance::over(TileTable::new(heap, junction)?))
            }
            Kind::StopLocks => Pile::StopLocks(StopLine::over(LockBook::new(heap, junction)?)),
            Kind::StopDistanceTiles => {
                let distance = Distance::over(TileTable::new(heap, junction)?);
                Pile::StopDistanceTiles(StopLine::over(distance))
            }
            Kind::DistanceStopLocks => {
                let stop_line = StopLine::over(LockBook::new(heap, junction)?);
                Pile::DistanceStopLocks(Distance::over(stop_line))
            }
        })
    }

    pub(crate) fn perform(&mut self, call: &PolicyCall) -> Result<Told, Refusal> {
        with_policy!(self, policy => perform(policy, call))
    }

    // Opens a run over the memory, and makes the calls.
    pub(crate) fn replay(
        &mut self,
        heap: Global,
        memory: &mut Memory,
        calls: &[Call],
    ) -> Result<Played, Unplayed> {
        let vehicles = memory.vehicles.as_mut_slice();
        let mail = memory.mail.as_mut_slice();
        with_policy!(self, policy => replay(heap, policy, vehicles, mail, calls))
    }

    // Makes further calls on the run.
    pub(crate) fn go_on(
        &mut self,
        heap: Global,
        run: &mut Run,
        memory: &mut Memory,
        calls: &[Call],
    ) -> Result<Vec<Answer>, AllocError> {
        let vehicles = memory.vehicles.as_mut_slice();
        let mail = memory.mail.as_mut_slice();
        with_policy!(self, policy => go_on(heap, run, policy, vehicles, mail, calls))
    }

    // What the run tells.
    pub(crate) fn telling<'a>(&self, run: &Run, memory: &'a Memory) -> Result<Telling<'a>, Stop> {
        with_policy!(self, policy => Telling::of(run, policy, memory))
    }

    pub(crate) fn clock(&self) -> u32 {
        with_policy!(self, policy => policy.clock())
    }

    // The i-th standing request, from 1.
    pub(crate) fn at(&self, i: u32) -> Option<Request> {
        with_policy!(self, policy => policy.at(i))
    }

    // The tile table below all layers, if there is one.
    pub(crate) fn table(&self) -> Option<&TileTable> {
        match self {
            Pile::Tiles(table) => Some(table),
            Pile::DistanceTiles(layer) => Some(&layer.below),
            Pile::StopDistanceTiles(layer) => Some(&layer.below.below),
            Pile::Locks(_) | Pile::StopLocks(_) | Pile::DistanceStopLocks(_) => None,
        }
    }

    // The limits of the Distance layer, if there is one.
    pub(crate) fn limits(&self) -> Option<[u32; 8]> {
        match self {
            Pile::DistanceTiles(layer) => Some(layer.own.limits),
            Pile::StopDistanceTiles(layer) => Some(layer.below.own.limits),
            Pile::DistanceStopLocks(layer) => Some(layer.own.limits),
            Pile::Tiles(_) | Pile::Locks(_) | Pile::StopLocks(_) => None,
        }
    }
}
