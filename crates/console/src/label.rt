// What `lines` writes of the label that waits.
use crate::ANSWER;
use crate::calls::Lines;
use report::pipes::Output;
use std::io;
use std::io::Write;
use text::{lines, refusal};

// The most places that a script can ask for: more than a text of lines may have bytes, so that it can show how many are too few.
pub(crate) const ROOM: usize = 1100;

// The label broken into lines, with so many places lent: the answer, and all the places as they stand afterwards. Before the call place k
// holds 4294967295 - k, so that a script can show which of them it writes. The output's buffer may not hold them all, so that room is made
// for each: no write ends inside a number.
pub(crate) fn break_lines<W: Write, const N: usize>(
    out: &mut Output<W, N>,
    label: &[u8],
    asked: Lines,
) -> io::Result<()> {
    let mut all = [0u32; ROOM];
    let places = &mut all[..asked.room.min(ROOM)];
    let mut mark = u32::MAX;
    for place in places.iter_mut() {
        *place = mark;
        mark = mark.saturating_sub(1);
    }
    let answer = lines::break_lines(label, asked.width, places);
    write!(out, "{} {}", refusal::number(answer), answer.unwrap_or(0))?;
    for place in places.iter() {
        out.make_room(ANSWER)?;
        write!(out, " {place}")?;
    }
    out.make_room(ANSWER)?;
    writeln!(out)
}
