// UTF-8: the RFC's examples, the codes at the ends of its ranges, and strings of each ill-formed kind beside their good neighbours.
use crate::lines::group;
use crate::show::{Spaced, Width, heading};
use arrayvec::ArrayVec;
use report::shown::YesNo;
use std::io;
use text::utf8;

// The bytes of the codes, one after the other; a character that passes 64 is left out.
fn encoded(codes: &[u32]) -> ArrayVec<u8, 64> {
    let mut all = ArrayVec::new();
    for code in codes {
        let e = utf8::encode(*code);
        let _fits = all.try_extend_from_slice(&e.bytes[..usize::from(e.len).min(4)]);
    }
    all
}

// Codes, their bytes, and whether those are UTF-8.
fn example(rt: &impl Print, codes: &[u32]) -> io::Result<()> {
    for code in codes {
        print!(rt; "{code:04x} ")?;
    }
    let bytes = encoded(codes);
    let s = bytes.as_slice();
    println!(rt; "->{}, utf-8 {}", Spaced(s), YesNo(utf8::is_utf8(s)))
}

fn examples(rt: &impl Print) -> io::Result<()> {
    heading(rt, "RFC 3629, section 7: the examples")?;
    example(rt, &[0x41, 0x2262, 0x391, 0x2e])?;
    example(rt, &[0xd55c, 0xad6d, 0xc5b4])?;
    example(rt, &[0x65e5, 0x672c, 0x8a9e])?;
    example(rt, &[0xfeff, 0x233b4])
}

// A code, how many bytes it has by its leading zeros, and how many and which are written: none of a code that is no character.
fn boundary(rt: &impl Print, code: u32) -> io::Result<()> {
    let e = utf8::encode(code);
    let bytes = Spaced(&e.bytes[..usize::from(e.len).min(4)]);
    let length = utf8::length_of(code);
    println!(rt;
        "{code:06x}: length {length}, written {}, bytes{bytes}",
        e.len
    )
}

fn boundaries(rt: &impl Print) -> io::Result<()> {
    group(
        rt,
        "The ends of the ranges of codes: the length by leading zeros, and what is written",
        &[
            0, 0x7f, 0x80, 0x7ff, 0x800, 0xd7ff, 0xd800, 0xdfff, 0xe000, 0xffff, 0x10000, 0x10ffff,
            0x110000, 0xffffffff,
        ],
        |code| boundary(rt, code),
    )
}

// Strings, whether each is UTF-8, and what it measures.
fn strings(rt: &impl Print, name: &str, all: &[&[u8]]) -> io::Result<()> {
    group(rt, name, all, |s| {
        let yes = YesNo(utf8::is_utf8(s));
        println!(rt;
            "bytes{}: utf-8 {yes}, measure: {}",
            Spaced(s),
            Width(text::measure(s))
        )
    })
}

// Bytes that are missing or too many.
fn torn(rt: &impl Print) -> io::Result<()> {
    strings(
        rt,
        "Ill-formed: tails and leads alone",
        &[
            b"\x80",
            b"\xbf",
            b"\xc3\xa9\xa9",
            b"\xc3A",
            b"\xe2\x82A",
            b"\xf0\x9f\x98A",
            b"\xc3\xc3\xa9",
        ],
    )?;
    strings(
        rt,
        "Ill-formed: cut short",
        &[
            b"\xc3",
            b"\xe2",
            b"\xe2\x82",
            b"\xf0",
            b"\xf0\x9f",
            b"\xf0\x9f\x98",
        ],
    )?;
    strings(
        rt,
        "Ill-formed: good, then bad, and bad, then good",
        &[b"Hi\xff", b"\xe2\x82\xac\x80", b"\x80Hi"],
    )
}

// Bytes that would make no character.
fn foreign(rt: &impl Print) -> io::Result<()> {
    strings(
        rt,
        "Ill-formed: overlong, of 2, 3 and 4 bytes",
        &[
            b"\xc0\x80",
            b"\xc1\xbf",
            b"\xe0\x80\x80",
            b"\xe0\x9f\xbf",
            b"\xf0\x80\x80\x80",
            b"\xf0\x8f\xbf\xbf",
        ],
    )?;
    strings(
        rt,
        "Ill-formed: surrogates, and a pair of them",
        &[
            b"\xed\xa0\x80",
            b"\xed\xbf\xbf",
            b"\xed\xa0\xbd\xed\xb8\x80",
        ],
    )?;
    strings(
        rt,
        "Ill-formed: above 10ffff, and bytes that start nothing",
        &[
            b"\xf4\x90\x80\x80",
            b"\xf5\x80\x80\x80",
            b"\xf8\x88\x80\x80\x80",
            b"\xfc\x84\x80\x80\x80\x80",
            b"\xfe",
            b"\xff",
        ],
    )
}

fn neighbours(rt: &impl Print) -> io::Result<()> {
    strings(
        rt,
        "Well-formed neighbours",
        &[
            b"",
            b"\x00",
            b"\x7f",
            b"\xc2\x80",
            b"\xdf\xbf",
            b"\xe0\xa0\x80",
            b"\xed\x9f\xbf",
            b"\xee\x80\x80",
            b"\xef\xbf\xbf",
            b"\xf0\x90\x80\x80",
            b"\xf4\x8f\xbf\xbf",
            b"a\xc3\xa9\xe2\x82\xac\xf0\x9f\x98\x80",
        ],
    )
}

pub(crate) fn run(rt: &impl Print) -> io::Result<()> {
    examples(rt)?;
    boundaries(rt)?;
    torn(rt)?;
    foreign(rt)?;
    neighbours(rt)
}
