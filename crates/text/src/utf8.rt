// UTF-8 as RFC 3629 has it: a reader that takes a byte at a time, the length and the bytes of a character, and steps over whole characters.
ghost use Rattle.std.specs.Prelude.{◌≡◌, true, ◌^◌, ◌<◌, get_or};
ghost use Rattle.text.specs.Utf8.{is_scalar, encoded, padded, encoded_as};
ghost use Rattle.text.specs.Lengths.{length_of};
ghost use Rattle.text.specs.Reader.{place, lead_of, step_of, is_utf8};
ghost use Rattle.text.specs.Steps.{is_tail, step_back, step_forward};

// Where a reader stands: how many bytes of a character are to come, the range of the next, and the bits read.
#[derive(Clone, Copy)]
pub struct Place {
    pub left: u8,
    pub low: u8,
    pub high: u8,
    pub code: u32,
}

// No byte lies from 255 to 0: who stands here stays here.
// Kept: a place like the others and no variant: a byte from 255 to 0 is none, so that a step asks nothing more, as the definition `lost` has it.
const LOST: Place = Place {
    left: 1,
    low: 255,
    high: 0,
    code: 0,
};

impl Place {
    fn new(left: u8, low: u8, high: u8, code: u32) -> Place
        ensures { result ≡ place left low high code }
    {
        Place {
            left,
            low,
            high,
            code,
        }
    }

    // The reader before the first byte.
    pub fn start() -> Place
        ensures { result ≡ place 0 0 0 0 }
    {
        Place::new(0, 0, 0, 0)
    }

    // The reader after a first byte, by the lines of the RFC's grammar.
    #[tactic(auto, unfolding(crate::specs::Reader::lead_of, arithmetic::specs::Tests::within))]
    fn lead(b: u8) -> Place
        ensures { result ≡ lead_of b }
    {
        let v = u32::from(b);
        match b {
            0..=0x7f => Place::new(0, 0, 0, v),
            0xc2..=0xdf => Place::new(1, 0x80, 0xbf, v % 32),
            0xe0 => Place::new(2, 0xa0, 0xbf, v % 16),
            0xe1..=0xec | 0xee..=0xef => Place::new(2, 0x80, 0xbf, v % 16),
            0xed => Place::new(2, 0x80, 0x9f, v % 16),
            0xf0 => Place::new(3, 0x90, 0xbf, v % 8),
            0xf1..=0xf3 => Place::new(3, 0x80, 0xbf, v % 8),
            0xf4 => Place::new(3, 0x80, 0x8f, v % 8),
            _ => LOST,
        }
    }

    // The reader one byte further. The bound on the bits read holds of every reader that began at the start.
    // Kept: a clause and no ghost field, since `Place` is public, and a field would ask more of who builds one.
    #[tactic(auto, unfolding(crate::specs::Reader::step_of, arithmetic::specs::Tests::within))]
    pub(crate) fn step(self, b: u8) -> Place
        requires { self.code < 2 ^ 26 }
        ensures { result ≡ step_of self b }
    {
        if self.left == 0 {
            return Place::lead(b);
        }
        if (self.low <= b) & (b <= self.high) {
            return Place::new(
                self.left - 1,
                0x80,
                0xbf,
                self.code * 64 + u32::from(b) % 64,
            );
        }
        LOST
    }
}

// Whether the bytes are UTF-8.
// Kept: no `str::from_utf8`, since document 01 asks that the RFC's reading is proved here, from its grammar, and not taken from a library.
pub fn is_utf8(s: &[u8]) -> bool
    ensures { result ≡ is_utf8 s.now }
{
    let mut p = Place::start();
    for b in s {
        p = p.step(*b);
    }
    p.left == 0
}

// Up to four bytes, and how many they are.
// Kept: an array and a count, since a slice or a `Vec` would need an owner or the heap, which document 01 rules out.
#[derive(Clone, Copy)]
pub struct Encoded {
    pub bytes: [u8; 4],
    pub len: u8,
}

// Whether a code is a character: a Unicode scalar value.
#[tactic(auto, unfolding(crate::specs::Utf8::is_scalar, arithmetic::specs::Tests::within))]
fn is_scalar(code: u32) -> bool
    ensures { result ≡ is_scalar code }
{
    char::from_u32(code).is_some()
}

// Kept: no `char::len_utf8`, since document 02 asks for this arithmetic by name.
// How many bytes a character has. It is arithmetic on the count of leading zero bits without a branch, since branch coverage is reviewed by hand:
// each quotient is 1 from 8, 12 and 17 bits on, and 0 before. Whether the code is a character is not asked: a surrogate has 3, a code past the last
// character 4.
#[tactic(auto, unfolding(crate::specs::Lengths::length_of, crate::specs::Lengths::length_by))]
pub fn length_of(code: u32) -> u8
    ensures { result ≡ length_of code }
{
    let z = u32::leading_zeros(code);
    (1 + (56 - z) / 32 + (52 - z) / 32 + (47 - z) / 32) as u8
}

// The bytes of a character that has `len` of them, and 0 behind them.
// Kept: no `char::encode_utf8`, since document 01 asks that the RFC's writing is proved here, from its table, and not taken from a library.
fn bytes_of(code: u32, len: u8) -> [u8; 4]
    requires { (is_scalar code ≡ true) × (len ≡ length_of code) }
    ensures { result ≡ (padded (encoded code)).bytes }
{
    let last = (0x80 + code % 64) as u8;
    let third = (0x80 + code / 64 % 64) as u8;
    let second = (0x80 + code / 4096 % 64) as u8;
    match len {
        1 => [code as u8, 0, 0, 0],
        2 => [(0xc0 + code / 64) as u8, last, 0, 0],
        3 => [(0xe0 + code / 4096) as u8, third, last, 0],
        _ => [(0xf0 + code / 262144) as u8, second, third, last],
    }
}

// A character as UTF-8; no bytes for a code that is no character.
#[tactic(auto, unfolding(crate::specs::Utf8::encoded_as))]
pub fn encode(code: u32) -> Encoded
    ensures { result ≡ encoded_as code }
{
    if !is_scalar(code) {
        return Encoded {
            bytes: [0, 0, 0, 0],
            len: 0,
        };
    }
    let len = length_of(code);
    Encoded {
        bytes: bytes_of(code, len),
        len,
    }
}

// Whether a byte starts no character.
#[tactic(auto, unfolding(arithmetic::specs::Tests::within))]
pub(crate) fn is_tail(b: u8) -> bool
    ensures { result ≡ is_tail b }
{
    matches!(b, 0x80..=0xbf)
}

// Whether a byte that starts no character stands at i.
fn tail_at(s: &[u8], i: usize) -> bool
    ensures { result ≡ is_tail (get_or s.now i 0) }
{
    match s.get(i) {
        Some(b) => is_tail(*b),
        None => false,
    }
}

// The start of the character that ends at `at`; 0 at the start of the bytes.
pub fn step_back(s: &[u8], at: usize) -> usize
    ensures { result ≡ step_back s.now at }
{
    for i in (1..at).rev() {
        if !tail_at(s, i) {
            return i;
        }
    }
    0
}

// The end of the character that starts at `at`; `at` itself at the end of the bytes.
pub fn step_forward(s: &[u8], at: usize) -> usize
    ensures { result ≡ step_forward s.now at }
{
    if s.len() <= at {
        return at;
    }
    for (i, b) in s[at + 1..].iter().enumerate() {
        if !is_tail(*b) {
            return at + 1 + i;
        }
    }
    s.len()
}
