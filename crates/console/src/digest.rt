// The state digest: FNV-1a over all that the tree holds.
use arithmetic::fold::StateHash;
use field::{Field, NodeId};
use tree::{Edges, Interaction, LayoutSlot, Pixel, Size, Slot, StatePatch, StateSlot, Style, Ui};

fn raw(h: StateHash, x: i64) -> StateHash {
    h.absorb_u64(x.cast_unsigned())
}

fn raws(h: StateHash, all: &[i64]) -> StateHash {
    all.iter().fold(h, |h, x| raw(h, *x))
}

// An id, or what stands for none.
// Kept: beside the desk's own fold, since docs/CONSOLE.md has the digest apart from the fingerprint, and the one checks the other.
fn id(h: StateHash, d: Option<NodeId>) -> StateHash {
    match d {
        None => h.absorb_u32(u32::MAX).absorb_u64(0),
        Some(d) => h.absorb_u32(d.index).absorb_u64(d.generation),
    }
}

fn size(h: StateHash, s: Size) -> StateHash {
    match s {
        Size::Auto => raw(h.absorb_u32(0), 0),
        Size::Px(x) => raw(h.absorb_u32(1), x),
    }
}

fn edges(h: StateHash, e: Edges) -> StateHash {
    raws(h, &[e.left, e.right, e.top, e.bottom])
}

fn style(h: StateHash, s: Style) -> StateHash {
    let sizes = size(size(h.absorb_u32(s.direction as u32), s.width), s.height);
    raw(edges(edges(sizes, s.margin), s.padding), s.gap)
        .absorb_u32(s.grow)
        .absorb_u32(s.justify as u32)
        .absorb_u32(s.align_cross as u32)
        .absorb_bytes(&s.background)
}

// Paragraph 1: the counts.
fn counts(h: StateHash, u: &Ui) -> StateHash {
    let slots = h
        .absorb_u32(u.limits.nodes)
        .absorb_u32(u.live)
        .absorb_u32(u.free)
        .absorb_u32(u32::from(u.dirty));
    raws(slots, &[u.solved_for.width, u.solved_for.height]).absorb_u64(u.layout_passes)
}

fn pixel(h: StateHash, at: Pixel) -> StateHash {
    h.absorb_u32(at.x.cast_unsigned())
        .absorb_u32(at.y.cast_unsigned())
}

// The pointer's pixel, 0 and 0 where it is nowhere, and whether it is placed.
fn pointer(h: StateHash, at: Option<Pixel>) -> StateHash {
    pixel(h, at.unwrap_or(Pixel { x: 0, y: 0 })).absorb_u32(u32::from(at.is_some()))
}

// Paragraph 2: what the tree remembers between events.
fn interaction(h: StateHash, i: Interaction) -> StateHash {
    id(id(pointer(h, i.pointer), i.pressed), i.focus)
        .absorb_u64(i.activations)
        .absorb_u64(i.decisions)
        .absorb_u64(i.overflowed)
        .absorb_u64(i.edit_fold)
}

// Paragraphs 3, 4 and 5: a count, and so many things.
fn listed<T, F: Fn(StateHash, &T) -> StateHash>(
    h: StateHash,
    all: &[T],
    count: u32,
    absorb: F,
) -> StateHash
    requires { F.IsAlwaysCallable absorb }
{
    let mut sum = h.absorb_u32(count);
    for x in all.iter().take(count as usize) {
        sum = absorb(sum, x);
    }
    sum
}

fn patch(h: StateHash, p: StatePatch) -> StateHash {
    style(h, p.style).absorb_u32(u32::from(p.touches_layout))
}

fn links(h: StateHash, s: Slot) -> StateHash {
    h.absorb_u64(s.generation)
        .absorb_u32(u32::from(s.live))
        .absorb_u32(s.parent)
        .absorb_u32(s.first_child)
        .absorb_u32(s.last_child)
        .absorb_u32(s.prev_sibling)
        .absorb_u32(s.next_sibling)
}

fn layout(h: StateHash, l: LayoutSlot) -> StateHash {
    let at = l.rect;
    let placed = [at.x, at.y, at.width, at.height];
    raws(
        raws(style(h, l.style), &placed),
        &[l.wanted_width, l.wanted_height],
    )
}

fn state_slot(h: StateHash, s: StateSlot) -> StateHash {
    let table = s
        .table
        .iter()
        .fold(h, |sum, entry| sum.absorb_u32(u32::from(*entry)));
    style(table, s.base)
        .absorb_u32(u32::from(s.applied))
        .absorb_u32(u32::from(s.bits))
}

// Paragraph 6: the slots below the limit.
fn slots(h: StateHash, u: &Ui) -> StateHash {
    let parts = u.slots.iter().zip(&u.layout).zip(&u.states);
    let mut sum = h;
    for ((slot, boxed), stated) in parts.take(u.limits.nodes as usize) {
        sum = state_slot(layout(links(sum, *slot), *boxed), *stated);
    }
    sum
}

// Paragraph 7: of a field its owner, its counts and its text.
fn field(h: StateHash, f: &Field) -> StateHash {
    let text = &f.bytes[..usize::from(f.len).min(64)];
    id(h, f.owner)
        .absorb_u32(u32::from(f.len))
        .absorb_u32(u32::from(f.cursor))
        .absorb_bytes(text)
}

// Paragraph 8: the marks, behind all the fields.
fn mark(h: StateHash, f: &Field) -> StateHash {
    h.absorb_u32(f.mark as u32)
}

// The digest of the whole tree.
pub(crate) fn state(u: &Ui) -> u64 {
    let remembered = interaction(counts(StateHash::new(), u), u.interaction);
    let waiting = listed(
        remembered,
        &u.outputs,
        u.output_count,
        |h, d| id(h, Some(*d)),
    );
    let pool = listed(waiting, &u.patches, u.patch_count, |h, p| patch(h, *p));
    let stated = listed(pool, &u.stated, u.stated_count, |h, k| h.absorb_u32(*k));
    let fields = u.fields.iter().fold(slots(stated, u), field);
    u.fields.iter().fold(fields, mark).finish()
}
