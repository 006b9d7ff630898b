// What nodes wear: styles, tables and the pool over the whole tree, by the bits of each node. The tree is lent, since a whole one is
// costly to pass on.
ghost use Rattle.std.specs.Prelude.{◌≡◌, ◌<◌, ◌≤◌};
ghost use Rattle.boxes.specs.States.{wear, bare_all};
ghost use Rattle.arithmetic.specs.Tests.{from_to};
ghost use Rattle.tree.specs.Calls.{pooled};
ghost use Rattle.tree.specs.Wearing.{appearance_of, with_appearance, styled_at, tabled_at};
ghost use Rattle.tree.specs.Trees.{limit_of, pool_of};

use crate::{StatePatch, Style, Ui};
use boxes::state;
use boxes::state::NO_PATCH;
use boxes::wearing::{put_base, put_style, put_table, strip, wear_patch};

// Slot i wears what its table has for the bits. Past the slots nothing is stored: what is read there wears patch 0.
#[tactic(auto, unfolding(crate::specs::Trees::with_styles, crate::specs::Wearing::with_appearance, boxes::specs::States::wear, boxes::specs::Styles::layout_at, boxes::specs::Styles::state_at, arithmetic::specs::Tests::same))]
pub fn wear(u: &mut Ui, i: u32, bits: u8)
    ensures { u.new ≡ with_appearance u.old (wear (pool_of u.old) (appearance_of u.old) i bits) }
{
    if 128 <= i {
        let pool = state::pool(&u.patches, u.patch_count);
        u.dirty |= state::touches(pool, 0) | state::touches(pool, NO_PATCH);
        return;
    }
    let k = i as usize;
    let before = u.states[k].applied;
    let next = state::entry_of(u.states[k].table, bits);
    wear_patch(&mut u.states[k], next, bits);
    if next == before {
        return;
    }
    let pool = state::pool(&u.patches, u.patch_count);
    let style = state::patch_style(pool, next, u.states[k].base);
    let moved = state::touches(pool, before) | state::touches(pool, next);
    put_style(&mut u.layout[k], style);
    u.dirty |= moved;
}

// Slot i gets a base style; it shows where no patch is worn.
#[tactic(auto, unfolding(crate::specs::Trees::with_styles, crate::specs::Wearing::styled_at, boxes::specs::Styles::layout_at, boxes::specs::Styles::state_at, arithmetic::specs::Tests::same))]
pub(crate) fn style_at(u: &mut Ui, i: u32, style: Style)
    requires { i < 128 }
    ensures { u.new ≡ styled_at u.old i style }
{
    let k = i as usize;
    put_base(&mut u.states[k], style);
    u.dirty = true;
    if u.states[k].applied == NO_PATCH {
        put_style(&mut u.layout[k], style);
    }
}

// Slot i gets a table, and wears what it has for the bits of before.
#[tactic(auto, unfolding(crate::specs::Trees::with_styles, crate::specs::Wearing::with_appearance, crate::specs::Wearing::tabled_at, boxes::specs::Styles::state_at))]
pub(crate) fn table_at(u: &mut Ui, i: u32, table: [u16; 16])
    requires { i < 128 }
    ensures { u.new ≡ tabled_at u.old i table }
{
    let k = i as usize;
    put_table(&mut u.states[k], table);
    wear(u, i, u.states[k].bits);
}

// Every slot below the limit loses table, bits and patch.
#[tactic(auto, using(crate::proofs::Wearings::bare_start))]
fn bare_all(u: &mut Ui)
    requires { limit_of u.old ≤ 128 }
    ensures { u.new ≡ with_appearance u.old (bare_all (appearance_of u.old) (from_to 0 (limit_of u.old))) }
{
    // Kept: an index, since two arrays are written at one place, and nothing is known of what a `zip` of two `iter_mut` wrote.
    for k in 0..u.limits.nodes as usize {
        let worn = u.states[k].applied;
        strip(&mut u.states[k]);
        if worn != NO_PATCH {
            put_style(&mut u.layout[k], u.states[k].base);
            u.dirty = true;
        }
    }
}

// The pool is the first `count` of the patches; every slot below the limit loses table, bits and patch.
#[tactic(auto, unfolding(crate::specs::Calls::pooled, crate::specs::Trees::with_styles, crate::specs::Trees::with_pool, crate::specs::Wearing::with_appearance))]
pub(crate) fn set_pool(u: &mut Ui, patches: &[StatePatch; 64], count: u32)
    requires { limit_of u.old ≤ 128 }
    ensures { u.new ≡ pooled u.old patches.now count }
{
    bare_all(u);
    u.patches = *patches;
    u.patch_count = count;
    u.stated_count = 0;
}
