// Line sets by example, a mark for each question: is the line in the set, is the size as counted by hand.
#![tactic(auto)]

use lineset::LineSet;
use std::io;

fn mark(yes: bool) -> u8 {
    if yes { b'1' } else { b'0' }
}

// The lines 44, 300, 448, 511 and 512, and the size.
fn show(rt: &impl Print, set: LineSet, size: u32) -> io::Result<()> {
    let lines = [44, 300, 448, 511, 512].map(|line| mark(set.contains(line)));
    rt.write_all(&lines)?;
    rt.write_all(&[mark(set.size() == size), b'\n'])
}

fn main(rt: HostRuntime) -> io::Result<()> {
    let one = LineSet::empty().with(300);
    let two = one.with(44).with(300);
    let other = LineSet::empty().with(511).with(300).with(448).with(512);
    show(&rt, LineSet::empty(), 0)?;
    show(&rt, one, 1)?;
    show(&rt, two, 2)?;
    show(&rt, other, 3)?;
    show(&rt, two.union(other), 4)?;
    show(&rt, two.common(other), 1)
}
