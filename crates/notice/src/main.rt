// A program over the text library: a mooring order, broken into lines for a box on the screen, and for one that is too narrow.
#![tactic(auto)]

use std::io;
use text::lines;

fn main(rt: HostRuntime) -> io::Result<()> {
    let order =
        b"MV Vega: berth at Quai \xc3\x89rard, starboard side to. Two head lines and two stern lines ashore, \
        then the springs. Draught 7.40 m, ramp 3.5 m. Keep the ramp up until 16:30.";
    notice(&rt, order, 120)?;
    notice(&rt, order, 20)
}

// The order in a box of so many pixels: its lines, or the number that refuses it.
fn notice(rt: &impl Print, order: &[u8], width: u32) -> io::Result<()> {
    let mut starts = [0u32; 64];
    match lines::break_lines(order, width, &mut starts) {
        Ok(n) => {
            println!(rt; "{width} pixels: {n} lines")?;
            show(rt, order, &starts[..(n as usize).min(64)])
        }
        Err(word) => println!(rt; "{width} pixels: refused by number {}", word.number()),
    }
}

// The lines: each ends before the space in front of the next, the last where the order ends.
fn show(rt: &impl Print, order: &[u8], starts: &[u32]) -> io::Result<()> {
    let mut from = 0;
    for start in starts.iter().skip(1) {
        let next = *start as usize;
        line(rt, order, from, next.saturating_sub(1))?;
        from = next;
    }
    line(rt, order, from, order.len())
}

// A line between bars, where it lies inside the order.
fn line(rt: &impl Print, order: &[u8], from: usize, end: usize) -> io::Result<()> {
    if let Some(line) = order.get(from..end) {
        rt.write_all(b"|")?;
        rt.write_all(line)?;
        rt.write_all(b"|\n")?;
    }
    Ok(())
}
