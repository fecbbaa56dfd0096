// Writes the task file of a trace in din form, which stands on standard input, to standard output; a refusal goes to standard error. The
// arguments give a memory block's size, records for each basic block, ticks for each record, S, Q, R and the id.
#![tactic(auto)]

use std::io;
use tracing::{Scan, Settings};

// More pieces of 65,536 bytes than any input has: 2^64 bytes.
const PIECES: u64 = 281474976710656;

fn settings_of(given: [u32; 7]) -> Settings {
    let [size, group, ticks, line_count, limit, reload, id] = given;
    Settings {
        size,
        group,
        ticks,
        line_count,
        limit,
        reload,
        id,
    }
}

// Scans standard input to its end, piece by piece, and keeps the addresses of the first records.
fn scan_input(rt: &impl Input, addresses: &mut [u32]) -> io::Result<Scan> {
    let mut piece = [0u8; 65536];
    let mut scan = Scan::start();
    for _ in 0..PIECES {
        let count = desk::read_input(rt, &mut piece)?;
        if count == 0 {
            return Ok(scan);
        }
        scan = scan.over(&piece[..count], addresses);
    }
    Ok(scan)
}

// Writes the file, or says why there is none.
fn write_file(
    rt: &(impl Print + Eprint),
    scan: Scan,
    addresses: &[u32],
    settings: Settings,
) -> io::Result<()> {
    let mut file = [0u8; 33280];
    match scan.finish(addresses, settings, &mut file) {
        Ok(length) => rt.write_all(desk::first(&file, length)),
        Err(refusal) => eprintln!(rt; "{refusal}"),
    }
}

fn main(rt: HostRuntime) -> io::Result<()> {
    let Some(given) = desk::arguments(&rt) else {
        return desk::print_usage(
            &rt,
            b"trace SIZE G TICKS S Q R ID < TRACE > FILE   SIZE: bytes of a memory block, from 1; G: records of a basic block, 1 to 124; TICKS: ticks of a record; S: cache lines, 1 to 512; Q: the limit in ticks; R: ticks of a reload; ID: a number; TRACE: din lines; FILE: a task file; all below 4294967296",
        );
    };
    let mut addresses = [0u32; tracing::ROOM];
    let scan = scan_input(&rt, &mut addresses)?;
    write_file(&rt, scan, &addresses, settings_of(given))
}
