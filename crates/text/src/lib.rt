// Text: the width of a text by the baked advances, over UTF-8 written and read as RFC 3629 says.
#![tactic(auto)]

pub mod lines;
pub mod refusal;
pub mod utf8;

ghost use Rattle.std.specs.Prelude.{◌≡◌, ◌^◌, ◌<◌, pos};
ghost use Rattle.text.specs.Advance.{advance_of, counted_of, measure_of};
ghost use Rattle.text.specs.Refusal.{answered};

use refusal::Refusal;
use utf8::Place;

static ADVANCES: [u8; 95] = [
    4, 4, 5, 7, 7, 12, 9, 2, 4, 4, 5, 8, 4, 4, 4, 4, 7, 7, 7, 7, 7, 7, 7, 7, 7, 7, 4, 4, 8, 8, 8,
    7, 13, 9, 9, 9, 9, 9, 8, 10, 9, 4, 7, 9, 7, 11, 9, 10, 9, 10, 9, 9, 8, 9, 9, 12, 9, 9, 8, 4, 4,
    4, 6, 7, 4, 7, 7, 7, 7, 7, 4, 7, 7, 3, 3, 7, 3, 11, 7, 7, 7, 7, 4, 7, 4, 7, 7, 9, 7, 7, 7, 4,
    3, 4, 8,
];

// The advance of one character in pixels: any other than 32 to 126 counts as '?'.
#[tactic(auto, unfolding(crate::specs::Advance::advance_of, crate::specs::Advance::advances, arithmetic::specs::Tests::within))]
pub fn advance_of(code: u32) -> u32
    ensures { (result ≡ advance_of code) × (result < 256) }
{
    let i = match code {
        32..=126 => code - 32,
        _ => 31,
    };
    u32::from(ADVANCES[i as usize])
}

// The sum after a byte: one advance more where a character has ended. It stops at the top of an i32.
#[tactic(auto, unfolding(crate::specs::Advance::counted_of))]
fn counted(total: u32, p: Place) -> u32
    requires { total < 2 ^ 31 }
    ensures { result ≡ counted_of total p }
{
    if p.left == 0 {
        (total + advance_of(p.code)).min(0x7fff_ffff)
    } else {
        total
    }
}

// The width of a text in raw units; bytes that are not UTF-8 are refused.
pub fn measure(s: &[u8]) -> Result<i64, Refusal>
    ensures { answered (pos 0) result ≡ measure_of s.now }
{
    let mut p = Place::start();
    let mut total = 0;
    for b in s {
        p = p.step(*b);
        total = counted(total, p);
    }
    if p.left == 0 {
        Ok(arithmetic::scalar::from_int(total as i32))
    } else {
        Err(Refusal::IllFormed)
    }
}
