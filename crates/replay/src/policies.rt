// What a policy tells, printed.
use super::pile::Pile;
use std::io::{self, Write};
use tile_table::table::TileTable;

// The marks of a tick that are not 0, by row and column.
fn print_marks<W: Write>(out: &mut W, table: &TileTable, tick: u32) -> io::Result<()> {
    for tile in 0..64u32 {
        if let Some(vehicle) = table.mark(tile, tick)
            && vehicle != 0
        {
            writeln!(out, "mark {tick} {} {} {vehicle}", tile / 8, tile % 8)?;
        }
    }
    Ok(())
}

fn print_limits<W: Write>(out: &mut W, limits: [u32; 8]) -> io::Result<()> {
    write!(out, "limits")?;
    for limit in limits {
        write!(out, " {limit}")?;
    }
    writeln!(out)
}

// The standing requests, in the order granted.
pub(crate) fn print_standing<W: Write>(out: &mut W, pile: &Pile) -> io::Result<()> {
    for request in (1..=64u32).map_while(|i| pile.at(i)) {
        let name = request.name();
        writeln!(
            out,
            "standing {} {} {}",
            name.vehicle, name.number, request.entry
        )?;
    }
    Ok(())
}

// The marks of a tile table, and the limits of a Distance layer.
pub(crate) fn print_tables<W: Write>(out: &mut W, pile: &Pile) -> io::Result<()> {
    if let Some(table) = pile.table() {
        let clock = pile.clock();
        for ahead in 0..128u32 {
            print_marks(out, table, clock.saturating_add(ahead))?;
        }
    }
    if let Some(limits) = pile.limits() {
        print_limits(out, limits)?;
    }
    Ok(())
}

// All that a policy tells without a run.
pub(crate) fn print_policy<W: Write>(out: &mut W, pile: &Pile) -> io::Result<()> {
    writeln!(out, "clock {}", pile.clock())?;
    print_standing(out, pile)?;
    print_tables(out, pile)
}
