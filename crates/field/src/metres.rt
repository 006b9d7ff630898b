// Metres: a text of one to three digits, optionally a point or a comma and one or two digits, as whole centimetres. Spaces before and behind
// are skipped.
ghost use Rattle.std.specs.Prelude.{◌≡◌, ◌-◌, ◌<◌, cond, length, take_while, Ok, Err, IfOk};
ghost use Rattle.arithmetic.specs.Tests.{within};
ghost use Rattle.field.specs.Metres.{is_digit, is_space, is_point, value_of, behind, plain_metres, skipped, skipped_back, point_for, pointed, metres_of};
ghost use Rattle.text.specs.Refusal.{answered};
ghost use Rattle.text.specs.declared.refusal.Refusal.TheVariants.{Unread};

use text::refusal::Refusal;

#[tactic(auto, unfolding(arithmetic::specs::Tests::within))]
fn is_digit(b: u8) -> bool
    ensures { result ≡ is_digit b }
{
    (b'0' <= b) & (b <= b'9')
}

fn is_space(b: u8) -> bool
    ensures { result ≡ is_space b }
{
    b == b' '
}

fn digit(b: u8) -> u32
    ensures { (result ≡ b - 48) × (result < 256) }
{
    b.saturating_sub(b'0') as u32
}

// A comma reads as a point.
#[tactic(auto, using(crate::proofs::Reading::point_or_comma))]
fn is_point(b: u8) -> bool
    ensures { result ≡ is_point (point_for b) }
{
    (b == b'.') | (b == b',')
}

// The text without the spaces before it.
fn skipped(s: &[u8]) -> &[u8]
    ensures { result.now ≡ skipped s.now }
{
    let n = s.iter().take_while(|b| is_space(**b)).count();
    &s[n..]
}

// The text without the spaces behind it.
fn skipped_back(s: &[u8]) -> &[u8]
    ensures { result.now ≡ skipped_back s.now }
{
    let n = s.iter().rev().take_while(|b| is_space(**b)).count();
    &s[..s.len() - n]
}

// The number that one to three digits make.
fn value(digits: &[u8]) -> Result<u32, Refusal>
    ensures value { result ≡ cond (within 1 3 (length digits.now)) (Ok (value_of digits.now (length digits.now))) (Err Unread) }
    ensures small { IfOk result (λ v. v < 100000) }
{
    match *digits {
        [a] => Ok(digit(a)),
        [a, b] => Ok(digit(a) * 10 + digit(b)),
        [a, b, c] => Ok((digit(a) * 10 + digit(b)) * 10 + digit(c)),
        _ => Err(Refusal::Unread),
    }
}

// What stands behind the whole metres, of which there are `v` centimetres.
fn fraction(s: &[u8], v: u32) -> Result<u32, Refusal>
    requires { v < 100000000 }
    ensures { answered 0 result ≡ behind v (pointed s.now) }
{
    match *s {
        [] => Ok(v),
        [p, d] if is_point(p) & is_digit(d) => Ok(v + digit(d) * 10),
        [p, d, e] if is_point(p) & (is_digit(d) & is_digit(e)) => Ok(v + digit(d) * 10 + digit(e)),
        _ => Err(Refusal::Unread),
    }
}

// How many digits stand at the front.
fn digits(s: &[u8]) -> usize
    ensures { result ≡ length (take_while is_digit s.now) }
{
    s.iter().take_while(|b| is_digit(**b)).count()
}

// A text without spaces before and behind, read as metres.
fn number(s: &[u8]) -> Result<u32, Refusal>
    ensures { answered 0 result ≡ plain_metres (pointed s.now) }
{
    if s.is_empty() {
        return Err(Refusal::Empty);
    }
    let (whole, rest) = s.split_at(digits(s));
    fraction(rest, value(whole)? * 100)
}

// A text read as metres, in whole centimetres.
pub fn metres_of(s: &[u8]) -> Result<u32, Refusal>
    ensures { answered 0 result ≡ metres_of s.now }
{
    number(skipped_back(skipped(s)))
}
