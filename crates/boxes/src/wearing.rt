// What nodes wear: the parts of a slot that change with it, the bits of a slot, and which slots wear theirs in turn.
ghost use Rattle.std.specs.Prelude.{◌≡◌, ◌≤◌, [], ◌++◌, take};
ghost use Rattle.boxes.specs.States.{bits_of, bits_by, wearing, with_style, live_slot, bearing};
ghost use Rattle.arena.specs.Slots.{backwards, is_id};
ghost use Rattle.arena.specs.Support.Lists.{listed, added_all};
ghost use Rattle.boxes.specs.Styles.{bare_state};
ghost use Rattle.boxes.specs.Support.Wearing.{kept_more, kept_live, kept_as};
ghost use Rattle.boxes.specs.States as states;

use crate::state::NO_PATCH;
use crate::{LayoutSlot, StateSlot, Style, state};
use arena::listed::Listed;
use arena::{Slot, links};
use field::NodeId;

// The nodes hovered, pressed and in focus.
#[derive(Clone, Copy, Debug, PartialEq, Eq)]
pub struct Marks {
    pub hover: Option<NodeId>,
    pub pressed: Option<NodeId>,
    pub focus: Option<NodeId>,
}

// The bits of slot i, which is s.
pub fn bits_in(s: Slot, i: u32, marks: Marks) -> u8
    ensures { result ≡ bits_of (is_id marks.hover (record { index = i; generation = s.generation })) (is_id marks.pressed (record { index = i; generation = s.generation })) (is_id marks.focus (record { index = i; generation = s.generation })) }
{
    let id = Some(NodeId {
        index: i,
        generation: s.generation,
    });
    state::bits_of(marks.hover == id, marks.pressed == id, marks.focus == id)
}

// The state slot wears a patch for the bits. Slots are lent, here and below: a whole one is costly to pass on.
pub fn wear_patch(s: &mut StateSlot, patch: u16, bits: u8)
    ensures { s.new ≡ wearing s.old patch bits }
{
    s.applied = patch;
    s.bits = bits;
}

// The layout slot has another style.
pub fn put_style(l: &mut LayoutSlot, style: Style)
    ensures { l.new ≡ with_style l.old style }
{
    l.style = style;
}

// The state slot has another base style.
pub fn put_base(s: &mut StateSlot, style: Style)
    ensures { s.new ≡ states.based s.old style }
{
    s.base = style;
}

// The state slot has another table.
pub fn put_table(s: &mut StateSlot, table: [u16; 16])
    ensures { s.new ≡ states.tabled s.old table }
{
    s.table = table;
}

// The state slot loses table, bits and patch.
pub fn strip(s: &mut StateSlot)
    ensures { s.new ≡ bare_state s.old.base }
{
    s.table = [NO_PATCH; 16];
    s.applied = NO_PATCH;
    s.bits = 0;
}

// A state slot without table, bits or patch.
pub fn bare(base: Style) -> StateSlot
    ensures { result ≡ bare_state base }
{
    StateSlot {
        table: [NO_PATCH; 16],
        base,
        applied: NO_PATCH,
        bits: 0,
    }
}

// One more in turn: the slot of an id that is live.
fn turn_live(turns: &mut Listed<6>, limit: u32, slots: &[Slot; 128], id: Option<NodeId>)
    ensures { turns.new ≡ added_all turns.old (live_slot limit slots.now id) }
{
    if let Some(d) = id {
        if links::is_live(limit, slots, d) {
            turns.push(d.index);
        }
    }
}

// The stated slots from the last, then the nodes hovered, pressed and in focus.
// Kept: an array and a count, since it answers of a count above the array too, which no slice of it has.
pub fn in_turn(
    limit: u32,
    slots: &[Slot; 128],
    stated: [u32; 3],
    count: u32,
    marks: Marks,
) -> Listed<6>
    ensures { (result.count ≤ 6) × (listed result ≡ backwards (take count stated) ++ (live_slot limit slots.now marks.hover ++ live_slot limit slots.now marks.pressed ++ live_slot limit slots.now marks.focus)) }
{
    let mut turns = Listed::new();
    for i in stated[..(count as usize).min(3)].iter().rev() {
        turns.push(*i);
    }
    turn_live(&mut turns, limit, slots, marks.hover);
    turn_live(&mut turns, limit, slots, marks.pressed);
    turn_live(&mut turns, limit, slots, marks.focus);
    turns
}

// One slot more, where it is asked for and not yet there.
fn keep(kept: &mut Listed<3>, asked: bool, i: u32)
    ensures { kept.new ≡ kept_more kept.old asked i }
{
    let new = asked & !kept.as_slice().contains(&i);
    if new {
        kept.push(i);
    }
}

// The slot of an id that is live is kept, where it has bits.
fn keep_live(
    kept: &mut Listed<3>,
    limit: u32,
    slots: &[Slot; 128],
    marks: Marks,
    id: Option<NodeId>,
)
    ensures { kept.new ≡ kept_live (bits_by slots.now marks.hover marks.pressed marks.focus) kept.old (live_slot limit slots.now id) }
{
    if let Some(d) = id {
        if links::is_live(limit, slots, d) {
            let s = links::slot_at(slots, d.index);
            let bits = bits_in(s, d.index, marks);
            keep(kept, bits != 0, d.index);
        }
    }
}

// Those of the nodes hovered, pressed and in focus that have bits are to be stated. Places past the count keep what they held.
pub fn restated(limit: u32, slots: &[Slot; 128], stated: [u32; 3], marks: Marks) -> Listed<3>
    ensures { result ≡ kept_as (bearing (bits_by slots.now marks.hover marks.pressed marks.focus) [] (live_slot limit slots.now marks.hover ++ live_slot limit slots.now marks.pressed ++ live_slot limit slots.now marks.focus)) stated }
{
    let mut kept = Listed {
        items: stated,
        count: 0,
    };
    keep_live(&mut kept, limit, slots, marks, marks.hover);
    keep_live(&mut kept, limit, slots, marks, marks.pressed);
    keep_live(&mut kept, limit, slots, marks, marks.focus);
    kept
}
