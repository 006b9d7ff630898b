// The rows: a link rule, a tree that breaks it alone, and a tree next to that which breaks nothing.
use crate::asking::{Call, Refused, ask};
use crate::good::{Base, id};
use damage::{done, same};
use field::{Mark, NodeId};
use std::io;
use text::refusal::Refusal;
use tree::Ui;
use tree::links::NIL;

// What went wrong at a call.
fn put_wrong(rt: &impl Print, call: Call, answer: Result<(), Refused>) -> io::Result<()> {
    match answer {
        Ok(()) => print!(rt; " {call} answers 0;"),
        Err(
            Refused {
                word: Refusal::Broken,
                untouched: false,
            },
        ) => print!(rt; " {call} answers 1 and changes something;"),
        Err(refused) => print!(rt; " {call} answers {};", refused.word.number()),
    }
}

// Whether a call is answered as it must be: on a broken tree by 1, with everything as it was; on another by no 1, and accepted where it
// names no node.
fn is_due(broken: bool, call: Call, answer: Result<(), Refused>) -> bool {
    match answer {
        Ok(()) => !broken,
        Err(
            Refused {
                word: Refusal::Broken,
                untouched,
            },
        ) => broken & untouched,
        Err(_) => !broken & call.names_node(),
    }
}

// Whether all of the calls are; the others are written.
fn each_due(rt: &impl Print, u: &Ui, calls: &[Call], d: NodeId, broken: bool) -> io::Result<bool> {
    let mut all = true;
    for call in calls {
        let answer = ask(u, *call, d);
        if !is_due(broken, *call, answer) {
            put_wrong(rt, *call, answer)?;
            all = false;
        }
    }
    Ok(all)
}

// Every call is asked with a node that lives, and those that name one again with a node that never was.
fn all_due(rt: &impl Print, u: &Ui, living: NodeId, broken: bool) -> io::Result<bool> {
    let naming = each_due(rt, u, &Call::NAMING, living, broken)?;
    let nameless = each_due(rt, u, &Call::NAMELESS, living, broken)?;
    let never = each_due(rt, u, &Call::NAMING, id(NIL), broken)?;
    Ok(naming & nameless & never)
}

// Whether the comparison sees the damage; if not, an unchanged tree would say nothing.
#[inline(never)]
fn seen(base: Base, bad: &Ui) -> bool {
    !same(&base.tree(), bad)
}

// What the calls answer on a tree that a damage broke.
#[inline(never)]
fn put_refused<F: FnOnce(&mut Ui)>(rt: &impl Print, base: Base, damage: F) -> io::Result<()>
    requires { F.IsAlwaysCallable damage }
{
    let u = done(base.tree(), damage);
    if !seen(base, &u) {
        print!(rt; " no damage seen;")?;
    }
    if all_due(rt, &u, base.living(), true)? {
        let asked = 2 * Call::NAMING.len() + Call::NAMELESS.len();
        print!(rt; " {asked} calls refused by 1, tree unchanged;")?;
    }
    Ok(())
}

// And on one that a damage left whole.
#[inline(never)]
fn put_served<F: FnOnce(&mut Ui)>(rt: &impl Print, base: Base, damage: F) -> io::Result<()>
    requires { F.IsAlwaysCallable damage }
{
    let u = done(base.tree(), damage);
    if all_due(rt, &u, base.living(), false)? {
        print!(rt; " neighbour served")?;
    }
    Ok(())
}

// One row: a damage that breaks the rule, and one next to it that breaks none. The three above are built into no other function, so that no
// frame has room for all their trees.
fn row<B: FnOnce(&mut Ui), N: FnOnce(&mut Ui)>(
    rt: &impl Print,
    name: &str,
    base: Base,
    bad: B,
    near: N,
) -> io::Result<()>
    requires bad { B.IsAlwaysCallable bad }
    requires near { N.IsAlwaysCallable near }
{
    print!(rt; "{name}:")?;
    put_refused(rt, base, bad)?;
    put_served(rt, base, near)?;
    println!(rt)
}

fn grown<B: FnOnce(&mut Ui), N: FnOnce(&mut Ui)>(
    rt: &impl Print,
    name: &str,
    bad: B,
    near: N,
) -> io::Result<()>
    requires bad { B.IsAlwaysCallable bad }
    requires near { N.IsAlwaysCallable near }
{
    row(rt, name, Base::Grown, bad, near)
}

// Slots, patches, the root.
pub(crate) fn counts(rt: &impl Print) -> io::Result<()> {
    row(
        rt,
        "0 slots",
        Base::Alone,
        |u| u.limits.nodes = 0,
        |u| u.limits.nodes = 1,
    )?;
    row(
        rt,
        "129 slots",
        Base::Wide,
        |u| u.limits.nodes = 129,
        |u| u.limits.nodes = 128,
    )?;
    grown(
        rt,
        "65 patches",
        |u| u.patch_count = 65,
        |u| u.patch_count = 64,
    )?;
    grown(
        rt,
        "root dead",
        |u| u.slots[0].live = false,
        |u| u.slots[0].generation = 7,
    )
}

// Slot 8 is taken from the free chain and made live; linked as the root's last child it is one of the tree.
fn awake(u: &mut Ui) {
    let slot = &mut u.slots[8];
    slot.live = true;
    slot.next_sibling = NIL;
    u.free = 7;
}

fn adopted(u: &mut Ui) {
    awake(u);
    let slot = &mut u.slots[8];
    slot.parent = 0;
    slot.prev_sibling = 5;
    u.slots[5].next_sibling = 8;
    u.slots[0].last_child = 8;
    u.live = 8;
}

fn childless(u: &mut Ui) {
    let slot = &mut u.slots[5];
    slot.first_child = NIL;
    slot.last_child = NIL;
}

// Slot 6 is dead and last in the free chain; unlinked from 5 it is a free slot.
fn asleep(u: &mut Ui) {
    u.slots[6].live = false;
    u.slots[11].next_sibling = 6;
}

fn dismissed(u: &mut Ui) {
    asleep(u);
    childless(u);
    u.live = 6;
}

// Slot 6 is the only child of 4 as well as of 5; moved it is 4's alone.
fn shared(u: &mut Ui) {
    let slot = &mut u.slots[4];
    slot.first_child = 6;
    slot.last_child = 6;
}

fn moved(u: &mut Ui) {
    shared(u);
    childless(u);
    u.slots[6].parent = 4;
}

// The previous links of two dead slots, which may lead anywhere.
fn dead_cycle(u: &mut Ui) {
    u.slots[8].prev_sibling = 7;
    u.slots[7].prev_sibling = 8;
}

// Live nodes are just those reached from the root, each in one child chain.
pub(crate) fn reach(rt: &impl Print) -> io::Result<()> {
    grown(rt, "live node not reached", awake, adopted)?;
    grown(rt, "reached slot dead", asleep, dismissed)?;
    grown(rt, "slot in two chains", shared, moved)?;
    grown(rt, "cycle", |u| u.slots[4].next_sibling = 2, dead_cycle)
}

// The children of 1 in the order 2, 4, 3 by their next links alone, and by both.
fn turned(u: &mut Ui) {
    u.slots[2].next_sibling = 4;
    u.slots[4].next_sibling = 3;
    u.slots[3].next_sibling = NIL;
    u.slots[1].last_child = 3;
}

fn reordered(u: &mut Ui) {
    turned(u);
    u.slots[4].prev_sibling = 2;
    u.slots[3].prev_sibling = 4;
}

// Links equal both ways. Of a dead slot only the next link is ruled.
pub(crate) fn links(rt: &impl Print) -> io::Result<()> {
    grown(
        rt,
        "parent link one way",
        |u| u.slots[3].parent = 5,
        |u| u.slots[8].parent = 5,
    )?;
    grown(
        rt,
        "previous link one way",
        |u| u.slots[3].prev_sibling = NIL,
        |u| u.slots[8].prev_sibling = NIL,
    )?;
    grown(rt, "next links one way", turned, reordered)?;
    grown(
        rt,
        "first child one way",
        |u| u.slots[3].first_child = 128,
        |u| u.slots[8].first_child = 128,
    )?;
    grown(
        rt,
        "last child one way",
        |u| u.slots[1].last_child = 3,
        |u| u.slots[8].last_child = 3,
    )?;
    grown(
        rt,
        "parent above the root",
        |u| u.slots[0].parent = 1,
        |u| u.slots[7].parent = 1,
    )
}

// The free chain in the order 7, 8, 9, 10, 11.
fn swapped(u: &mut Ui) {
    u.slots[7].next_sibling = 8;
    u.slots[8].next_sibling = 9;
    u.free = 7;
}

// In the order 7, 9, 10, 11, 8.
fn rotated(u: &mut Ui) {
    u.slots[11].next_sibling = 8;
    u.slots[8].next_sibling = NIL;
    u.free = 7;
}

// The free chain, 8, 7, 9, 10, 11, and the live count.
pub(crate) fn free(rt: &impl Print) -> io::Result<()> {
    grown(
        rt,
        "dead slot not in the free chain",
        |u| u.free = 7,
        swapped,
    )?;
    grown(
        rt,
        "slot twice in the free chain",
        |u| u.slots[11].next_sibling = 8,
        rotated,
    )?;
    grown(rt, "wrong live count", |u| u.live = 8, adopted)
}

// Worn and table numbers, and bits. The pool has two patches.
pub(crate) fn states(rt: &impl Print) -> io::Result<()> {
    grown(
        rt,
        "worn number past the pool",
        |u| u.states[3].applied = 2,
        |u| u.states[3].applied = 1,
    )?;
    grown(
        rt,
        "table number past the pool",
        |u| u.states[3].table[15] = 2,
        |u| u.states[3].table[15] = 1,
    )?;
    grown(
        rt,
        "bits 8",
        |u| u.states[3].bits = 8,
        |u| u.states[3].bits = 7,
    )
}

fn stated_slots(u: &mut Ui, slots: [u32; 3], count: u32) {
    u.stated = slots;
    u.stated_count = count;
}

// Stated slots, and the queue.
pub(crate) fn stated(rt: &impl Print) -> io::Result<()> {
    grown(
        rt,
        "4 stated slots",
        |u| stated_slots(u, [2, 3, 0], 4),
        |u| stated_slots(u, [2, 3, 0], 3),
    )?;
    grown(
        rt,
        "stated slot twice",
        |u| stated_slots(u, [2, 3, 2], 3),
        |u| stated_slots(u, [2, 3, 2], 2),
    )?;
    grown(
        rt,
        "stated slot out of range",
        |u| stated_slots(u, [12, 3, 0], 2),
        |u| stated_slots(u, [11, 3, 0], 2),
    )?;
    grown(
        rt,
        "queue over the limit",
        |u| u.output_count = 13,
        |u| u.output_count = 12,
    )
}

fn owned(u: &mut Ui, generation: u64) {
    u.fields[1].owner = Some(NodeId {
        index: 2,
        generation,
    });
}

// Field 1 with a text of one or two bytes, so long, and the caret there.
fn text(u: &mut Ui, start: [u8; 2], len: u8, caret: u8) {
    let field = &mut u.fields[1];
    field.bytes[..2].copy_from_slice(&start);
    field.len = len;
    field.cursor = caret;
}

// Field 1 with as much of the text "7." as the length says, and a mark.
fn marked(u: &mut Ui, len: u8, mark: Mark) {
    text(u, [55, 46], len, 0);
    u.fields[1].mark = mark;
}

pub(crate) fn fields(rt: &impl Print) -> io::Result<()> {
    grown(
        rt,
        "two fields with one owner",
        |u| owned(u, 1),
        |u| owned(u, 2),
    )?;
    grown(
        rt,
        "field of length 65",
        |u| text(u, [55, 46], 65, 0),
        |u| text(u, [55, 46], 64, 0),
    )?;
    grown(
        rt,
        "text not UTF-8",
        |u| text(u, [128, 0], 1, 0),
        |u| text(u, [128, 0], 0, 0),
    )?;
    grown(
        rt,
        "caret inside a character",
        |u| text(u, [195, 169], 2, 1),
        |u| text(u, [195, 169], 2, 2),
    )?;
    grown(
        rt,
        "caret past the length",
        |u| text(u, [55, 46], 1, 2),
        |u| text(u, [55, 46], 1, 1),
    )?;
    grown(
        rt,
        "confirmed text that is no metres",
        |u| marked(u, 2, Mark::Confirmed),
        |u| marked(u, 2, Mark::Typed),
    )?;
    grown(
        rt,
        "confirmed with no text",
        |u| marked(u, 0, Mark::Confirmed),
        |u| marked(u, 1, Mark::Confirmed),
    )
}
