// Labels in lines: a text is broken at spaces, and each line takes as many words as fit.
ghost use Rattle.std.specs.Prelude.{◌≡◌, ◌≤◌, length, drop};
ghost use Rattle.text.specs.Lines.{first_of, widest_in, word_of, greedy};
ghost use Rattle.text.specs.LineStarts.{starts_from, line_count_of, starts_kept};
ghost use Rattle.text.specs.Refusal.{answered};
ghost use Rattle.text.specs.Support.LineParts.{weight_of, Spans, lines_from};

use crate::refusal::Refusal;
use crate::{advance_of, utf8};

// A word or a line: where it ends, and how wide it is in pixels.
#[derive(Clone, Copy)]
struct Part {
    end: usize,
    width: u32,
}

// How many lines there are, and how wide the widest is.
#[derive(Clone, Copy)]
struct Tally {
    lines: usize,
    widest: u32,
}

// A byte's share of its character's advance: all of it at the first byte. So a walk over bytes needs no decoder.
#[tactic(auto, unfolding(crate::specs::Support::LineParts::weight_of))]
fn weight(b: u8) -> u32
    ensures { result ≡ weight_of b }
{
    if utf8::is_tail(b) {
        0
    } else {
        advance_of(u32::from(b))
    }
}

// A text to be broken, short enough that each width of it fits, and the width of its lines.
#[derive(Clone, Copy)]
struct Label<'a> {
    bytes: &'a [u8],
    width: u32,
    ghost short: { length bytes.now ≤ 1024 },
}

impl<'a> Label<'a> {
    // The word that starts at `from`.
    fn word(&self, from: usize) -> Part
        requires { from ≤ length self.now.bytes.now }
        ensures { Spans self.now.bytes.now from (word_of (drop from self.now.bytes.now)) result }
    {
        let mut width = 0;
        for (i, b) in self.bytes[from..].iter().enumerate() {
            if *b == b' ' {
                return Part {
                    end: from + i,
                    width,
                };
            }
            width += weight(*b);
        }
        Part {
            end: self.bytes.len(),
            width,
        }
    }

    // The line that starts at `from`: its first word, however wide, and as many more as fit.
    fn line(&self, from: usize) -> Part
        requires { from ≤ length self.now.bytes.now }
        ensures { Spans self.now.bytes.now from (first_of (greedy weight_of self.now.width (drop from self.now.bytes.now))) result }
    {
        let mut taken = self.word(from);
        while taken.end < self.bytes.len() {
            let next = self.word(taken.end + 1);
            let width = taken.width + advance_of(32) + next.width;
            if self.width < width {
                return taken;
            }
            taken = Part {
                end: next.end,
                width,
            };
        }
        taken
    }

    // The lines counted, and the width of the widest.
    // Kept: a `while` since a line's end is known when the line is read: a `for` has no list to run over, and a proof knows
    // nothing of what a closure changes that is called for each line.
    fn counted(&self) -> Tally
        ensures { (result.lines ≡ length (lines_from self.now.width 0 self.now.bytes.now)) × (result.widest ≡ widest_in weight_of (lines_from self.now.width 0 self.now.bytes.now)) × (result.lines ≤ 1025) }
    {
        let mut lines = 0;
        let mut widest = 0;
        let mut at = 0;
        while at <= self.bytes.len() {
            let l = self.line(at);
            lines += 1;
            widest = l.width.max(widest);
            at = l.end + 1;
        }
        Tally { lines, widest }
    }

    // The starts of the lines, into a buffer that has a place for each.
    fn write_starts(&self, starts: &mut [u32])
        requires { length (lines_from self.now.width 0 self.now.bytes.now) ≡ length starts.old }
        ensures { starts.new ≡ starts_from 0 (lines_from self.now.width 0 self.now.bytes.now) }
    {
        let mut at = 0;
        for place in starts.iter_mut() {
            *place = at as u32;
            at = self.line(at).end + 1;
        }
    }
}

// Breaks a text into lines of at most `width` pixels: how many they are, and in the front of the lent buffer the byte offset where each starts. The
// further places keep what they held, and a refused call writes nothing. It counts first, since a line too wide or a place too few may come last.
pub fn break_lines(s: &[u8], width: u32, starts: &mut [u32]) -> Result<u32, Refusal>
    ensures { (answered 0 result ≡ line_count_of s.now width (length starts.old)) × (starts.new ≡ starts_kept s.now width starts.old) }
{
    if !utf8::is_utf8(s) {
        return Err(Refusal::IllFormed);
    }
    if 1024 < s.len() {
        return Err(Refusal::Short);
    }
    let label = Label { bytes: s, width };
    let c = label.counted();
    if width < c.widest {
        return Err(Refusal::Wide);
    }
    if starts.len() < c.lines {
        return Err(Refusal::Short);
    }
    label.write_starts(&mut starts[..c.lines]);
    Ok(c.lines as u32)
}
