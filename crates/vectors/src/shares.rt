// The sharing of a leftover among grows.
use crate::show::heading;
use arithmetic::growth;
use std::{array, io};

// A plan for the first `count` grows, of which n shares are written.
// Kept: the call's own form is an array of 128 and a count, and the rows have counts below and above the grows that they name.
fn plan(
    rt: &impl Print,
    name: &str,
    leftover: i64,
    grows: [u32; 128],
    count: usize,
    n: usize,
) -> io::Result<()> {
    print!(rt; "{name}:")?;
    for share in growth::plan_growth(leftover, grows, count).iter().take(n) {
        print!(rt; " {share}")?;
    }
    println!(rt)
}

fn grows(a: u32, b: u32, c: u32) -> [u32; 128] {
    let mut g = [0u32; 128];
    g[0] = a;
    g[1] = b;
    g[2] = c;
    g
}

// 3, 10, 6, 2, ..: each place times 7, and 3, modulo 11.
fn many() -> [u32; 128] {
    array::from_fn(|i| ((i * 7 + 3) % 11) as u32)
}

fn documented(rt: &impl Print) -> io::Result<()> {
    heading(rt, "Growth: the shares of a leftover")?;
    plan(rt, "P1: leftover 10, grows 1 1 1", 10, grows(1, 1, 1), 3, 3)?;
    plan(rt, "P2: leftover 7, grows 1 2 0", 7, grows(1, 2, 0), 3, 3)?;
    plan(
        rt,
        "P3: leftover 2^62, grows 2^32-1 1",
        4611686018427387904,
        grows(4294967295, 1, 0),
        2,
        2,
    )?;
    plan(rt, "P4: leftover 0, grows 1 1 1", 0, grows(1, 1, 1), 3, 3)
}

fn others(rt: &impl Print) -> io::Result<()> {
    plan(rt, "leftover -5, grows 1 2 3", -5, grows(1, 2, 3), 3, 3)?;
    plan(rt, "leftover 5, grows 0 0 0", 5, grows(0, 0, 0), 3, 3)?;
    plan(
        rt,
        "leftover 10, grows 1 2 and one that is not counted",
        10,
        grows(1, 2, 3),
        2,
        3,
    )?;
    plan(rt, "leftover 11, grows 3 3 5", 11, grows(3, 3, 5), 3, 3)?;
    plan(
        rt,
        "leftover 2^63-1, grows 2^32-1 2^32-1 2^32-2",
        9223372036854775807,
        grows(4294967295, 4294967295, 4294967294),
        3,
        3,
    )
}

fn whole(rt: &impl Print) -> io::Result<()> {
    plan(rt, "leftover 1000, 128 grows", 1000, many(), 128, 128)?;
    plan(
        rt,
        "leftover 2^63-1, 128 grows",
        9223372036854775807,
        many(),
        128,
        128,
    )?;
    plan(
        rt,
        "leftover 100, 128 grows of 2^32-1, count 200",
        100,
        [4294967295u32; 128],
        200,
        128,
    )
}

pub(crate) fn run(rt: &impl Print) -> io::Result<()> {
    documented(rt)?;
    others(rt)?;
    whole(rt)
}
