// FNV-1a, 64 bits: vectors of the reference list, and numbers beside their bytes.
use crate::lines::group;
use crate::show::Spaced;
use arithmetic::fold::StateHash;
use report::shown::YesNo;
use std::io;

pub(crate) fn sum_of(s: &[u8]) -> u64 {
    StateHash::new().absorb_bytes(s).finish()
}

fn published(rt: &impl Print) -> io::Result<()> {
    group(
        rt,
        "FNV-1a, 64 bits: the reference list",
        &[
            "", "a", "b", "c", "d", "e", "f", "fo", "foo", "foob", "fooba", "foobar", "ch", "cho",
            "chon", "chong", "chongo",
        ],
        |s| println!(rt; "\"{s}\": {:016x}", sum_of(s.as_bytes())),
    )?;
    group(
        rt,
        "FNV-1a, 64 bits: the reference list, with a 0 at the end",
        &["\0", "a\0", "foobar\0"],
        |s| {
            let bytes = s.as_bytes();
            println!(rt; "bytes{}: {:016x}", Spaced(bytes), sum_of(bytes))
        },
    )
}

// Numbers by their names, the sum that they leave, and whether that of their bytes is the same.
fn compared(rt: &impl Print, name: &str, all: &[(&str, StateHash, &[u8])]) -> io::Result<()> {
    group(rt, name, all, |(name, after, s)| {
        let sum = after.finish();
        let same = YesNo(sum == sum_of(s));
        println!(rt; "{name}: {sum:016x}, as bytes{}: {same}", Spaced(s))
    })
}

fn numbers(rt: &impl Print) -> io::Result<()> {
    let fresh = StateHash::new();
    compared(
        rt,
        "FNV-1a, 64 bits: numbers, lowest byte first",
        &[
            ("u32 00000000", fresh.absorb_u32(0), b"\x00\x00\x00\x00"),
            (
                "u32 12345678",
                fresh.absorb_u32(0x12345678),
                b"\x78\x56\x34\x12",
            ),
            (
                "u32 ffffffff",
                fresh.absorb_u32(0xffffffff),
                b"\xff\xff\xff\xff",
            ),
            (
                "u32 12345678",
                fresh.absorb_u32(0x12345678),
                b"\x12\x34\x56\x78",
            ),
            (
                "u64 0000000000000000",
                fresh.absorb_u64(0),
                b"\x00\x00\x00\x00\x00\x00\x00\x00",
            ),
            (
                "u64 0123456789abcdef",
                fresh.absorb_u64(0x0123456789abcdef),
                b"\xef\xcd\xab\x89\x67\x45\x23\x01",
            ),
            (
                "u64 ffffffffffffffff",
                fresh.absorb_u64(0xffffffffffffffff),
                b"\xff\xff\xff\xff\xff\xff\xff\xff",
            ),
            (
                "u64 0123456789abcdef",
                fresh.absorb_u64(0x0123456789abcdef),
                b"\x01\x23\x45\x67\x89\xab\xcd\xef",
            ),
            (
                "u32 00000001, u64 0000000000000002",
                fresh.absorb_u32(1).absorb_u64(2),
                b"\x01\x00\x00\x00\x02\x00\x00\x00\x00\x00\x00\x00",
            ),
        ],
    )
}

pub(crate) fn run(rt: &impl Print) -> io::Result<()> {
    published(rt)?;
    numbers(rt)
}
