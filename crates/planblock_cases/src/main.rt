// Plan blocks by example: what storing and reading answer, a line for each case.
#![tactic(auto)]

ghost use Rattle.std.specs.Prelude.{Ok, ◌≡◌, ◌≤◌, ◌<◌};
ghost use Rattle.model.specs.Answers.{accept};
ghost use Rattle.planvalue.specs.Values.{plan_verdict};

use model::{Plan, Refusal};
use std::io;

// What is shown where no plan is read.
const NONE: Plan = Plan {
    blocks: 0,
    id: 0,
    count: 0,
    lines: 0,
    cost: 0,
    points: [0; 64],
};

fn show(rt: &impl Print, case: &str, verdict: Result<(), Refusal>) -> io::Result<()> {
    print!(rt; "{case}: ")?;
    desk::print_verdict(rt, verdict)
}

// A plan's fields, and its first two points.
fn show_plan(rt: &impl Print, case: &str, plan: Plan) -> io::Result<()> {
    let Plan {
        blocks,
        id,
        count,
        lines,
        cost,
        points,
    } = plan;
    print!(rt; "{case}: N {blocks}, id {id}, count {count}, lines {lines}, cost {cost}, points")?;
    desk::print_points(rt, &points[..2])?;
    println!(rt)
}

// A plan with these first three entries.
fn plan(blocks: u16, count: u16, first: [u16; 3]) -> Plan {
    let mut points = [0u16; 64];
    points[..3].copy_from_slice(&first);
    Plan {
        blocks,
        id: 7,
        count,
        lines: 5,
        cost: 1000,
        points,
    }
}

// Four blocks, cut after the first and the third.
fn right() -> Plan {
    plan(4, 2, [1, 3, 0])
}

fn store_into(plan: Plan, n: usize) -> Result<(), Refusal>
    requires { n ≤ 513 }
{
    let mut out = [0u8; 513];
    planblock::store(plan, &mut out[0..n])
}

// Stores a plan with these first three entries.
fn store(rt: &impl Print, case: &str, blocks: u16, count: u16, first: [u16; 3]) -> io::Result<()> {
    show(rt, case, store_into(plan(blocks, count, first), 512))
}

// Whether bytes are read as a plan.
fn read_verdict(bytes: &[u8]) -> Result<(), Refusal> {
    planblock::read(bytes)?;
    Ok(())
}

fn read_zeros(n: usize) -> Result<(), Refusal>
    requires { n ≤ 513 }
{
    let bytes = [0u8; 513];
    read_verdict(&bytes[0..n])
}

// Stores a plan, sets one byte, makes the checksum right and reads.
fn read_with(plan: Plan, at: usize, byte: u8) -> Result<(), Refusal>
    requires { at < 512 }
{
    let mut bytes = [0u8; 512];
    planblock::store(plan, &mut bytes)?;
    bytes[at] = byte;
    block::seal(&mut bytes);
    read_verdict(&bytes)
}

// Stores the right plan, sets one byte, makes the checksum right and reads.
fn read(rt: &impl Print, case: &str, at: usize, byte: u8) -> io::Result<()>
    requires { at < 512 }
{
    show(rt, case, read_with(right(), at, byte))
}

// Stores a plan, changes one byte and reads.
fn read_changed(plan: Plan, at: usize) -> Result<(), Refusal>
    requires { at < 512 }
{
    let mut bytes = [0u8; 512];
    planblock::store(plan, &mut bytes)?;
    bytes[at] = if bytes[at] == 0 { 1 } else { 0 };
    read_verdict(&bytes)
}

// Stores a plan and reads it back: an accepted plan comes back whole.
fn round_trip(plan: Plan) -> Result<Plan, Refusal>
    ensures { plan_verdict plan ≡ accept → result ≡ Ok plan }
{
    let mut bytes = [0u8; 512];
    let _ = planblock::store(plan, &mut bytes); // A refused plan leaves zeros, which are no plan.
    planblock::read(&bytes)
}

fn one_to_63() -> [u16; 64] {
    let mut points = [0u16; 64];
    for (point, n) in points.iter_mut().zip(1..64) {
        *point = n;
    }
    points
}

// 64 blocks, cut after each but the last.
fn all_points(count: u16) -> Plan {
    let points = one_to_63();
    Plan {
        blocks: 64,
        id: 7,
        count,
        lines: 5,
        cost: 1000,
        points,
    }
}

// A right plan but for its last entry.
fn with_last() -> Plan {
    let mut plan = right();
    plan.points[63] = 1;
    plan
}

// Whether a refused plan leaves the buffer as it was.
fn kept(plan: Plan) -> bool {
    let before = [170u8; 512];
    let mut out = [170u8; 512];
    let _ = planblock::store(plan, &mut out);
    out == before
}

// 9 first: a buffer of another length than 512.
fn buffers(rt: &impl Print) -> io::Result<()> {
    show(rt, "store in 0 bytes", store_into(right(), 0))?;
    show(rt, "store in 511 bytes", store_into(right(), 511))?;
    show(rt, "store in 512 bytes", store_into(right(), 512))?;
    show(rt, "store in 513 bytes", store_into(right(), 513))?;
    show(
        rt,
        "store n65 in 511 bytes",
        store_into(plan(65, 2, [1, 3, 0]), 511),
    )
}

// Then 7 at 0: N is 1 to 64, and the count at most 63.
fn ranges(rt: &impl Print) -> io::Result<()> {
    store(rt, "store n0", 0, 0, [0, 0, 0])?;
    store(rt, "store n1", 1, 0, [0, 0, 0])?;
    store(rt, "store n64", 64, 2, [1, 63, 0])?;
    store(rt, "store n65", 65, 2, [1, 3, 0])?;
    store(rt, "store n65, equal points", 65, 2, [1, 1, 0])?;
    show(rt, "store count 63", store_into(all_points(63), 512))?;
    show(rt, "store count 64", store_into(all_points(64), 512))
}

// Then 7 at the lowest wrong entry.
fn entries(rt: &impl Print) -> io::Result<()> {
    store(rt, "store point 0", 4, 2, [0, 3, 0])?;
    store(rt, "store point N", 4, 2, [1, 4, 0])?;
    store(rt, "store equal points", 4, 2, [2, 2, 0])?;
    store(rt, "store falling points", 4, 2, [3, 1, 0])?;
    store(rt, "store two wrong points", 4, 3, [1, 1, 9])?;
    store(rt, "store entry 2 beyond the count", 4, 2, [1, 3, 2])?;
    show(
        rt,
        "store entry 63 beyond the count",
        store_into(with_last(), 512),
    )?;
    if kept(with_last()) {
        println!(rt; "the refused store left the buffer")?;
    }
    Ok(())
}

// 1, then 2: the length and the checksum. The four zeros are not the hash of the others.
fn frames(rt: &impl Print) -> io::Result<()> {
    show(rt, "read 0 bytes", read_zeros(0))?;
    show(rt, "read 511 bytes", read_zeros(511))?;
    show(rt, "read 513 bytes", read_zeros(513))?;
    show(rt, "read 512 zeros", read_zeros(512))?;
    show(rt, "read with byte 8 changed", read_changed(right(), 8))?;
    show(rt, "read with byte 511 changed", read_changed(right(), 511))?;
    read(rt, "read as stored", 20, 1)
}

// Then 5: a wrong field under a right checksum.
fn fields(rt: &impl Print) -> io::Result<()> {
    read(rt, "read kind 3", 0, 3)?;
    read(rt, "read byte 1 not zero", 1, 1)?;
    read(rt, "read n0", 2, 0)?;
    read(rt, "read n65", 2, 65)?;
    read(rt, "read n260", 3, 1)?;
    read(rt, "read count 64", 4, 64)?;
    read(rt, "read count 258", 5, 1)?;
    read(rt, "read byte 503 not zero", 503, 1)?;
    read(rt, "read block number 1", 504, 1)
}

// The lines, the cost and the id are free.
fn free_fields(rt: &impl Print) -> io::Result<()> {
    read(rt, "read other lines", 6, 255)?;
    read(rt, "read another cost", 15, 255)?;
    read(rt, "read another id", 19, 255)
}

// And wrong points: points 1 and 3 stand at bytes 20 and 22.
fn points(rt: &impl Print) -> io::Result<()> {
    read(rt, "read point 0", 20, 0)?;
    read(rt, "read point N", 22, 4)?;
    read(rt, "read equal points", 22, 1)?;
    show(
        rt,
        "read falling points",
        read_with(plan(64, 2, [5, 9, 0]), 22, 4),
    )?;
    read(rt, "read one point more", 4, 3)?;
    read(rt, "read one point less", 4, 1)?;
    read(rt, "read point 2, not 1", 20, 2)
}

fn main(rt: HostRuntime) -> io::Result<()> {
    buffers(&rt)?;
    ranges(&rt)?;
    entries(&rt)?;
    frames(&rt)?;
    fields(&rt)?;
    free_fields(&rt)?;
    points(&rt)?;
    show_plan(&rt, "stored and read", round_trip(right()).unwrap_or(NONE))?;
    show_plan(
        &rt,
        "refused and read",
        round_trip(with_last()).unwrap_or(NONE),
    )
}
