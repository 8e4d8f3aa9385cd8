// Shipping over a connection that breaks: all files are sent before the archive reads any frame, and what a break left unfinished is
// worked off when the link has come back.
mod cargo;
mod crossing;
mod trouble;

use crate::breaking::cargo::Cargo;
use crate::breaking::crossing::{Crossing, Reach};
use crate::breaking::trouble::Trouble;
use crate::{Failed, fail};
use memory::LinkMemory;
use sender::ticket::Ticket;
use shipping::options::Options;
use shipping::report::Totals;
use std::fs;

// The messages of all files.
fn load(rt: &HostRuntime, options: &Options<'_>) -> Result<Cargo, Failed> {
    let heap = rt.alloc();
    let mut cargo = Cargo::new(heap);
    for parcel in &options.parcels {
        let path = parcel.path;
        let file = fs::read(rt, path).map_err(|e| fail(rt, format_args!("{path}: {e}")))?;
        cargo.load(heap, file.as_slice()).map_err(|e| fail(rt, e))?;
    }
    Ok(cargo)
}

// One connection: what came back with it is told at its end.
fn connect(
    rt: &HostRuntime,
    until: Option<u64>,
    crossing: &mut Crossing<'_>,
    tickets: &mut Vec<Ticket>,
) -> Result<Reach, Trouble> {
    let reach = crossing.go_on(until, tickets)?;
    if let Some(returns) = crossing.returns() {
        println!(rt; "came back: {returns}")?;
    }
    Ok(reach)
}

// Each connection goes on until the archive has read so many frames, and the last one until all files are through.
fn cross(
    rt: &HostRuntime,
    breaks: &[u32],
    crossing: &mut Crossing<'_>,
    tickets: &mut Vec<Ticket>,
) -> Result<(), Trouble> {
    crossing.send_all(tickets)?;
    for at in breaks {
        if connect(rt, Some(u64::from(*at)), crossing, tickets)? != Reach::Broken {
            return Ok(());
        }
        println!(rt; "{}", crossing.break_report())?;
        crossing.break_off()?;
        crossing.attach()?;
    }
    connect(rt, None, crossing, tickets)?;
    Ok(())
}

// A line for each file that was sent, and one for all.
fn tell(
    rt: &HostRuntime,
    options: &Options<'_>,
    crossing: &Crossing<'_>,
    tickets: &Vec<Ticket>,
) -> Result<(), Trouble> {
    let mut totals = Totals::default();
    let files = options.parcels.iter().zip(crossing.cargo.files.iter());
    for ((parcel, file), ticket) in files.zip(tickets.iter()) {
        let shelf = parcel.shelf;
        let path = parcel.path;
        let bytes = file.bytes;
        let shipment = file.shipment(ticket.number());
        println!(rt; "{shelf} {path}: {bytes} bytes, {shipment}")?;
        totals.add(bytes, &shipment);
    }
    println!(rt; "{totals}")?;
    Ok(())
}

// Ships all files over a connection that breaks as often as is asked.
pub fn run_breaking(rt: &HostRuntime, options: &Options<'_>) -> Result<(), Failed> {
    let heap = rt.alloc();
    let cargo = load(rt, options)?;
    let mut memory = LinkMemory::with_entries(heap, options.parcels.len()).map_err(|e| fail(
        rt,
        Trouble::from(e),
    ))?;
    let mut crossing = Crossing::open(
        heap,
        &mut memory,
        options.frame,
        options.credit,
        cargo,
    ).map_err(|e| fail(rt, e))?;
    let mut tickets = Vec::new(heap);
    let crossed = cross(rt, options.breaks.as_slice(), &mut crossing, &mut tickets);
    let told = tell(rt, options, &crossing, &tickets);
    crossing.collect(tickets);
    crossed.map_err(|e| fail(rt, e))?;
    told.map_err(|e| fail(rt, e))
}
