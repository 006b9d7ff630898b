// Growth: what is left over along an axis, shared among the siblings that grow, by largest remainder.
ghost use Rattle.std.specs.Prelude.{◌≡◌, ◌+◌, ◌*◌, ◌/◌, ◌%◌, ◌≤◌, ◌<◌, ◌^◌, length};
ghost use Rattle.arithmetic.specs.Growth.{grow_sum, table, plan_growth};
ghost use Rattle.arithmetic.specs.Support.Steps.{Divisible, PartsOf, FirstLargest, RoomForUnits, with_unit};

// The long division takes 24 bits at a time: the sum of 128 grows is below 2^39, and a remainder of it with 24 bits more fits 64.
const DIGIT: u64 = 16777216;

const TWO_DIGITS: u64 = 281474976710656;

// What a division gives.
#[derive(Clone, Copy)]
struct Division {
    quotient: u64,
    remainder: u64,
}

// Quotient and remainder of l * g by t, where l * g may have 95 bits: the digits of l, highest first, each times g.
// Kept: no `u128`, whose division is a function that a static library would need from outside.
fn mul_div(l: u64, g: u32, t: u64) -> Division
    requires { Divisible l g t }
    ensures { (result.quotient ≡ l * g / t) × (result.remainder ≡ l * g % t) }
{
    let w = g as u64;
    let high = l / TWO_DIGITS * w;
    let middle = high % t * DIGIT + l / DIGIT % DIGIT * w;
    let low = middle % t * DIGIT + l % DIGIT * w;
    Division {
        quotient: high / t * TWO_DIGITS + middle / t * DIGIT + low / t,
        remainder: low % t,
    }
}

// The sum of the grows.
fn grow_sum(grows: &[u32]) -> u64
    requires { length grows.now ≤ 128 }
    ensures { (result ≡ grow_sum grows.now (length grows.now)) × (result < 2 ^ 39) }
{
    grows.iter().map(|g| u64::from(*g)).sum()
}

// The shares before the missing units are given. A key is the remainder plus 1, which leaves 0 to mark a place that has had its unit.
// Kept: two arrays, since the shares are what a plan answers, and one array of both would be taken apart again.
#[derive(Clone, Copy)]
struct Parts {
    shares: [i64; 128],
    keys: [u64; 128],
    given: u64,
}

// The whole shares of l among the grows, whose sum is t, their keys, and the sum of the shares.
fn whole_shares(l: u64, grows: &[u32], t: u64) -> Parts
    requires { (l < 2 ^ 63) × (length grows.now ≤ 128) × (t ≡ grow_sum grows.now (length grows.now)) × (0 < t) × (t < 2 ^ 39) }
    ensures { PartsOf l grows.now (length grows.now) result.shares result.keys result.given }
{
    let mut shares = [0i64; 128];
    let mut keys = [0u64; 128];
    let mut given: u64 = 0;
    for (i, g) in grows.iter().enumerate() {
        let s = mul_div(l, *g, t);
        shares[i] = s.quotient as i64;
        keys[i] = s.remainder + 1;
        given += s.quotient;
    }
    Parts {
        shares,
        keys,
        given,
    }
}

// The place of the largest key; of equal ones the earlier, hence `<` and not `<=`.
fn first_largest(keys: &[u64]) -> usize
    requires { 0 < length keys.now }
    ensures { FirstLargest keys.now (length keys.now) result }
{
    let mut best = 0;
    for (i, key) in keys.iter().enumerate() {
        if keys[best] < *key {
            best = i;
        }
    }
    best
}

// The shares of the first n places, with one unit more for the largest key, `missing` times over, no place twice.
fn give_units(parts: Parts, n: usize, missing: u64) -> [i64; 128]
    requires { RoomForUnits parts.shares parts.keys n missing }
    ensures { result ≡ table 128 (with_unit parts.shares parts.keys n missing) }
{
    let mut shares = parts.shares;
    let mut keys = parts.keys;
    for _ in 0..missing {
        let best = first_largest(&keys[..n]);
        keys[best] = 0;
        shares[best] += 1;
    }
    shares
}

// Kept: an array with a count, since a count above 128 is answered too, as one of 128, and no slice of the array has it.
// The shares of a leftover among the first `count` places, 128 at most. All are 0 where the leftover or the grow sum is not
// positive, and so is every share past the count.
pub fn plan_growth(leftover: i64, grows: [u32; 128], count: usize) -> [i64; 128]
    ensures { result ≡ plan_growth leftover grows count }
{
    if leftover <= 0 {
        return [0; 128];
    }
    let grows = &grows[..count.min(128)];
    let t = grow_sum(grows);
    if t == 0 {
        return [0; 128];
    }
    let l = leftover.unsigned_abs();
    let parts = whole_shares(l, grows, t);
    give_units(parts, grows.len(), l - parts.given)
}
