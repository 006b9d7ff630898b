// State styling: whether two styles lay out alike, what a table has for some bits, and which numbers are in the pool.
ghost use Rattle.std.specs.Prelude.{◌≡◌, ◌&&◌, cond, ◌≤◌, take, leb};
ghost use Rattle.arithmetic.specs.Tests.{all};
ghost use Rattle.boxes.specs.Geometry.{moves_geometry};
ghost use Rattle.boxes.specs.States.{bits_of, entry_of, in_pool, patch_style, state_well};
ghost use Rattle.boxes.specs.States as states;
ghost use Rattle.arena.specs.Rules.{distinct};

use super::{StatePatch, StateSlot, Style};

// The bits of a node's state. Bit 8 is in every table and nothing sets it.
// Kept: document 01 has the bits as numbers that index a table, and 65535 for the base style.
pub const STATE_HOVER: u8 = 1;

pub const STATE_PRESSED: u8 = 2;

pub const STATE_FOCUS: u8 = 4;

// The table entry that means the base style.
pub const NO_PATCH: u16 = 65535;

// Whether two styles differ in more than their backgrounds.
pub fn moves_geometry(base: Style, resolved: Style) -> bool
    ensures { result ≡ moves_geometry base resolved }
{
    let alike = Style {
        background: resolved.background,
        ..base
    };
    alike != resolved
}

// The bit's value where it is set, else 0.
fn bit(set: bool, value: u8) -> u8
    ensures { (result ≡ cond set value 0) × (result ≤ value) }
{
    if set {
        return value;
    }
    0
}

// The bits of a node.
#[tactic(auto, unfolding(crate::specs::States::bits_of))]
pub fn bits_of(hover: bool, pressed: bool, focus: bool) -> u8
    ensures { result ≡ bits_of hover pressed focus }
{
    bit(hover, STATE_HOVER) + bit(pressed, STATE_PRESSED) + bit(focus, STATE_FOCUS)
}

// The table's patch number for some bits.
#[tactic(auto, unfolding(crate::specs::States::entry_of))]
pub fn entry_of(table: [u16; 16], bits: u8) -> u16
    ensures { result ≡ entry_of table bits }
{
    table[(bits % 16) as usize]
}

// Whether a table entry is the base style's or in the pool: the next number, which is 0 after the base style's, is at most the count. All
// in 16 bits, so that a table's entries are compared eight at a time.
#[tactic(auto, unfolding(crate::specs::States::in_pool, arithmetic::specs::Tests::same))]
pub fn in_pool(count: u32, k: u16) -> bool
    ensures { result ≡ in_pool count k }
{
    k.wrapping_add(1) <= count.min(65535) as u16
}

// Whether all entries of a table are. It goes through them all: a loop that cannot stop early is compiled to a few wide comparisons.
pub fn table_in_pool(count: u32, table: &[u16; 16]) -> bool
    ensures { result ≡ all (in_pool count) table.now }
{
    let mut all = true;
    for k in table {
        all = all & in_pool(count, *k);
    }
    all
}

// The patches of the pool: the first `count`. The tree holds an array and a count; from here on a pool is a slice.
pub fn pool(patches: &[StatePatch; 64], count: u32) -> &[StatePatch]
    ensures { result.now ≡ take count patches.now }
{
    &patches[..(count as usize).min(64)]
}

// The style that a patch number gives: the patch's, or the base style where it is not in the pool.
#[tactic(auto, unfolding(crate::specs::States::patch_style))]
pub fn patch_style(pool: &[StatePatch], k: u16, base: Style) -> Style
    ensures { result ≡ patch_style pool.now k base }
{
    match pool.get(k as usize) {
        Some(p) => p.style,
        None => base,
    }
}

// Whether wearing the patch moves boxes, by its own flag.
#[tactic(auto, unfolding(crate::specs::States::touches))]
pub fn touches(pool: &[StatePatch], k: u16) -> bool
    ensures { result ≡ states.touches pool.now k }
{
    match pool.get(k as usize) {
        Some(p) => p.touches_layout,
        None => false,
    }
}

// Whether a slot's worn and table numbers are the base style's or in the pool, and its bits at most 7.
pub fn state_well(count: u32, s: &StateSlot) -> bool
    ensures { result ≡ state_well count s.now }
{
    let worn = in_pool(count, s.applied);
    let entries = table_in_pool(count, &s.table);
    worn & (entries & (s.bits <= 7))
}

// Whether those below the limit are all so.
// Kept: an array and a limit, since it answers of a limit above the array too, which no slice of it has.
// Not built into its caller, for what `tree::rules::broken` says.
#[inline(never)]
pub fn states_well(count: u32, limit: u32, states: &[StateSlot; 128]) -> bool
    ensures { result ≡ all (state_well count) (take limit states.now) }
{
    states
        .iter()
        .take(limit as usize)
        .all(|s| state_well(count, s))
}

// Whether at most 3 slots are stated, each once and below the limit.
// Kept: a match on the count, since three places make three comparisons; a loop over the pairs of a slice would need two indices for them.
pub fn stated_well(limit: u32, stated: [u32; 3], count: u32) -> bool
    ensures { result ≡ (leb count 3 && distinct limit (take count stated)) }
{
    let [a, b, c] = stated;
    let last = c < limit;
    let second = (b < limit) & ((c != b) & last);
    match count {
        0 => true,
        1 => a < limit,
        2 => (a < limit) & ((b != a) & (b < limit)),
        3 => (a < limit) & (((b != a) & (c != a)) & second),
        _ => false,
    }
}
