// Raw numbers, 65536 to a pixel: sums that stop at the ends of an i64, products, halves and comparisons. Each is the library's method, under
// the contract that says what document 01 says of it.
ghost use Rattle.std.specs.Prelude.{◌≡◌};
ghost use Rattle.arithmetic.specs.Scalar.{add_sat, sub_sat, gap_times, half_of, from_int, max_of, incremented, unsigned_of};

// The sum, stopped at both ends.
#[tactic(auto, unfolding(crate::specs::Scalar::add_sat, crate::specs::Scalar::stop))]
pub fn saturating_add(a: i64, b: i64) -> i64
    ensures { result ≡ add_sat a b }
{
    a.saturating_add(b)
}

// The difference, stopped at both ends.
#[tactic(auto, unfolding(crate::specs::Scalar::sub_sat, crate::specs::Scalar::stop))]
pub fn saturating_sub(a: i64, b: i64) -> i64
    ensures { result ≡ sub_sat a b }
{
    a.saturating_sub(b)
}

// A gap taken count times, stopped at both ends.
#[tactic(auto, unfolding(crate::specs::Scalar::gap_times, crate::specs::Scalar::stop))]
pub fn gap_times(gap: i64, count: u32) -> i64
    ensures { result ≡ gap_times gap count }
{
    gap.saturating_mul(i64::from(count))
}

// Half, rounded down to a whole pixel.
pub fn half(a: i64) -> i64
    ensures { result ≡ half_of a }
{
    (a >> 17) * 65536
}

// A whole number of pixels as a raw number.
pub fn from_int(x: i32) -> i64
    ensures { result ≡ from_int x }
{
    i64::from(x) * 65536
}

// The larger of two numbers.
#[tactic(auto, unfolding(crate::specs::Scalar::max_of))]
pub fn max(a: i64, b: i64) -> i64
    ensures { result ≡ max_of a b }
{
    a.max(b)
}

// One more, staying at the largest u64.
pub fn increment(x: u64) -> u64
    ensures { result ≡ incremented x }
{
    x.saturating_add(1)
}

// The 32 bits of a signed number, read as a number without a sign.
#[tactic(auto, unfolding(crate::specs::Scalar::unsigned_of))]
pub fn cast_unsigned(x: i32) -> u32
    ensures { result ≡ unsigned_of x }
{
    x.cast_unsigned()
}
