// Layout: what a node wants to be, and where it places its children.
ghost use Rattle.arena.specs.Support.Lists.{Small};
ghost use Rattle.std.specs.Prelude.{◌≡◌, ◌&&◌, cond, List, not, ◌≤◌, ltb, pos};
ghost use Rattle.std.specs.Int.Signed.{le_z, lt_z};
ghost use Rattle.std.specs.List.{list_any};
ghost use Rattle.arithmetic.specs.Scalar.{add_sat, sub_sat};
ghost use Rattle.boxes.specs.Layout as laid;
ghost use Rattle.boxes.specs.Support.Views.{child_of, axes_of, extent_of, summed_with, grown_of, box_at, past_of, no_shares, content_of, SumOf, SharedOut};

use crate::{Align, Direction, Edges, LayoutSlot, Rect, Size, Style, Viewport};
use arena::Slot;
use arena::rules::reach_root;
use arithmetic::{growth, scalar};

// Lengths along a parent's main and cross axis.
#[derive(Clone, Copy)]
struct Lengths {
    pub main: i64,
    pub cross: i64,
}

// Whether p lies from `start` on, before `length` more.
fn spans(start: i64, length: i64, p: i64) -> bool
    ensures { result ≡ (le_z start p && lt_z p (add_sat start length)) }
{
    let end = scalar::saturating_add(start, length);
    if start <= p { p < end } else { false }
}

// Whether the box holds the pixel: left and top edges in, right and bottom out.
pub(crate) fn holds(x: i32, y: i32, r: Rect) -> bool
    ensures { result ≡ laid.holds x y r }
{
    let px = scalar::from_int(x);
    let py = scalar::from_int(y);
    let across = spans(r.x, r.width, px);
    let down = spans(r.y, r.height, py);
    across & down
}

// Whether two viewports have one size.
pub fn same_view(v: Viewport, w: Viewport) -> bool
    ensures { result ≡ laid.same_view v w }
{
    v == w
}

// Where a run starts in free space: at the start where there is none.
fn offset(a: Align, free: i64) -> i64
    ensures { result ≡ laid.offset a free }
{
    if free <= 0 {
        return 0;
    }
    match a {
        Align::Start => 0,
        Align::Center => scalar::half(free),
        Align::End => free,
    }
}

// A set size, or the size needed.
fn sized(size: Size, needed: i64) -> i64
    ensures { result ≡ laid.sized size needed }
{
    match size {
        Size::Auto => needed,
        Size::Px(set) => set,
    }
}

// A length with what stands before and behind it.
fn widened(a: i64, before: i64, behind: i64) -> i64
    ensures { result ≡ add_sat (add_sat a before) behind }
{
    let sum = scalar::saturating_add(a, before);
    scalar::saturating_add(sum, behind)
}

// Width and height as lengths along a direction's axes.
// Kept: apart from `turned`, its inverse, as the definitions have both; of one swap for both a reader could not see which way it goes.
fn axes(d: Direction, width: i64, height: i64) -> Lengths
    ensures { axes_of result ≡ laid.axes d width height }
{
    match d {
        Direction::Row => Lengths {
            main: width,
            cross: height,
        },
        Direction::Column => Lengths {
            main: height,
            cross: width,
        },
    }
}

// A child's wanted size with its margins, along its parent's axes.
fn outer(d: Direction, child: LayoutSlot) -> Lengths
    ensures { axes_of result ≡ laid.outer d (child_of child) }
{
    let s = child.style;
    let m = s.margin;
    let width = widened(child.wanted_width, m.left, m.right);
    let height = widened(child.wanted_height, m.top, m.bottom);
    axes(d, width, height)
}

// The children so far, and one more: the main lengths summed, the largest across.
fn with_child(a: Lengths, d: Direction, child: LayoutSlot) -> Lengths
    ensures { axes_of result ≡ summed_with d (axes_of a) (child_of child) }
{
    let o = outer(d, child);
    Lengths {
        main: scalar::saturating_add(a.main, o.main),
        cross: scalar::max(a.cross, o.cross),
    }
}

// What children take along the main axis, with a gap between each two, and the largest across: from their summed lengths and their number.
// Kept: `sum` and `count` apart: the loops count the children as their bound and the place of a grow, and would write a struct's field for it.
fn content_extent(style: Style, sum: Lengths, count: u32) -> Lengths
    ensures { (cs : List laid.Child) → SumOf style sum count cs → axes_of result ≡ laid.content style cs }
{
    if count < 2 {
        return sum;
    }
    let gaps = scalar::gap_times(style.gap, count - 1);
    Lengths {
        main: scalar::saturating_add(sum.main, gaps),
        cross: sum.cross,
    }
}

// Lengths along a direction's axes as a width and a height.
fn turned(d: Direction, a: Lengths) -> (i64, i64)
    ensures { extent_of result ≡ laid.extent d (axes_of a) }
{
    match d {
        Direction::Row => (a.main, a.cross),
        Direction::Column => (a.cross, a.main),
    }
}

// A set size, or the content's with the padding before and behind it.
fn wanted(size: Size, content: i64, before: i64, behind: i64) -> i64
    ensures { result ≡ laid.sized size (add_sat (add_sat content before) behind) }
{
    let needed = widened(content, before, behind);
    sized(size, needed)
}

// What a node of this style wants to be, from its children's summed lengths and their number: a width and a height.
fn want(style: Style, sum: Lengths, count: u32) -> (i64, i64)
    ensures { (cs : List laid.Child) → SumOf style sum count cs → extent_of result ≡ laid.want style cs }
{
    let d = style.direction;
    let p = style.padding;
    let c = content_extent(style, sum, count);
    let (width, height) = turned(d, c);
    let wide = wanted(style.width, width, p.left, p.right);
    let high = wanted(style.height, height, p.top, p.bottom);
    (wide, high)
}

// The slot with a wanted size.
fn with_wants(l: LayoutSlot, wants: (i64, i64)) -> LayoutSlot
    ensures { result ≡ laid.with_wants l (extent_of wants) }
{
    let (wanted_width, wanted_height) = wants;
    LayoutSlot {
        wanted_width,
        wanted_height,
        ..l
    }
}

// The slot with a box.
fn with_rect(l: LayoutSlot, rect: Rect) -> LayoutSlot
    ensures { result ≡ laid.with_rect l rect }
{
    LayoutSlot { rect, ..l }
}

// A child's wanted size, grown along the main axis: a width and a height.
fn grown(d: Direction, child: LayoutSlot, growth: i64) -> (i64, i64)
    ensures { extent_of result ≡ grown_of d (child_of child) growth }
{
    let width = child.wanted_width;
    let height = child.wanted_height;
    match d {
        Direction::Row => (scalar::saturating_add(width, growth), height),
        Direction::Column => (width, scalar::saturating_add(height, growth)),
    }
}

// A child's box: from the corner of the content, so far along the main axis and so far across.
fn boxed(d: Direction, content: Rect, shift: Lengths, growth: i64, child: LayoutSlot) -> Rect
    ensures { result ≡ laid.boxed d content.x content.y shift.main shift.cross growth (child_of child) }
{
    let m = child.style.margin;
    let (right, down) = turned(d, shift);
    let (width, height) = grown(d, child, growth);
    Rect {
        x: widened(content.x, right, m.left),
        y: widened(content.y, down, m.top),
        width,
        height,
    }
}

// A child's box at the cursor, `run.main`, aligned in the `run.cross` across.
fn child_box(style: Style, content: Rect, run: Lengths, growth: i64, child: LayoutSlot) -> Rect
    ensures { result ≡ box_at style content.x content.y run.cross run.main growth (child_of child) }
{
    let d = style.direction;
    let a = style.align_cross;
    let o = outer(d, child);
    let free = scalar::saturating_sub(run.cross, o.cross);
    let shift = Lengths {
        main: run.main,
        cross: offset(a, free),
    };
    boxed(d, content, shift, growth, child)
}

// The cursor behind a child and a gap.
fn past_child(style: Style, run: Lengths, growth: i64, child: LayoutSlot) -> Lengths
    ensures { (result.main ≡ past_of style run.main growth (child_of child)) × (result.cross ≡ run.cross) }
{
    let d = style.direction;
    let o = outer(d, child);
    let sum = widened(run.main, o.main, growth);
    Lengths {
        main: scalar::saturating_add(sum, style.gap),
        cross: run.cross,
    }
}

// What a node's padding leaves of its box.
fn content_box(p: Edges, rect: Rect) -> Rect
    ensures { result ≡ content_of p rect }
{
    let width = scalar::saturating_sub(rect.width, p.left);
    let height = scalar::saturating_sub(rect.height, p.top);
    Rect {
        x: scalar::saturating_add(rect.x, p.left),
        y: scalar::saturating_add(rect.y, p.top),
        width: scalar::saturating_sub(width, p.right),
        height: scalar::saturating_sub(height, p.bottom),
    }
}

// What a node's children leave of the room for them, along its main axis.
fn leftover_of(style: Style, room: Lengths, sum: Lengths, count: u32) -> i64
    ensures { (cs : List laid.Child) → SumOf style sum count cs → result ≡ sub_sat room.main (laid.content style cs).main }
{
    let content = content_extent(style, sum, count);
    scalar::saturating_sub(room.main, content.main)
}

// Where the run of children starts in a node's room, and the room across.
fn run_start(style: Style, room: Lengths, free: i64) -> Lengths
    ensures { (result.main ≡ laid.offset style.justify free) × (result.cross ≡ room.cross) }
{
    Lengths {
        main: offset(style.justify, free),
        cross: room.cross,
    }
}

// Whether one of the children grows.
fn some_grow(grows: &[u32]) -> bool
    ensures { result ≡ list_any (ltb 0) grows.now }
{
    grows.iter().any(|g| *g > 0)
}

// A length where it counts, or 0.
fn counted(counts: bool, length: i64) -> i64
    ensures { result ≡ cond counts length (pos 0) }
{
    if counts { length } else { 0 }
}

// Each child's share of the leftover; returns whether the shares count: where nothing is left or nothing grows, none is planned, since a
// plan's arrays are copied, and all is left free.
// Kept: an array with a count, as `plan_growth` takes them.
fn share_out(leftover: i64, grows: &[u32; 128], count: u32, shares: &mut [i64; 128]) -> bool
    requires { count ≤ 128 }
    ensures { SharedOut leftover grows.now count (cond result shares.new no_shares) (cond (not result) leftover (pos 0)) }
{
    if leftover <= 0 {
        return false;
    }
    let n = count as usize;
    let some = some_grow(&grows[..n]);
    if some {
        let all = *grows;
        let planned = growth::plan_growth(leftover, all, n);
        *shares = planned;
        return true;
    }
    false
}

// The slots of an order store what they want to be, the last first: children before parents.
// Kept: the inner loop follows sibling links; no slice holds the children, and it counts them, since the gaps between them go by their number.
fn measure_all(slots: &[Slot; 128], layout: &mut [LayoutSlot; 128], ids: &[u32])
    requires { Small ids.now }
    ensures { layout.new ≡ laid.measure_all slots.now layout.old ids.now }
{
    for id in ids.iter().rev() {
        let i = *id as usize;
        let l = layout[i];
        let style = l.style;
        let d = style.direction;
        let mut sum = Lengths { main: 0, cross: 0 };
        let mut child = slots[i].first_child;
        let mut n: u32 = 0;
        while (child < 128) & (n < 128) {
            let c = child as usize;
            let o = layout[c];
            sum = with_child(sum, d, o);
            child = slots[c].next_sibling;
            n += 1;
        }
        let e = want(style, sum, n);
        layout[i] = with_wants(l, e);
    }
}

// The children of the slots of an order get their boxes: parents before children.
// Kept: the inner loops follow sibling links; no slice holds the children, and each has its grow and share at the place that it is counted to.
fn arrange_all(slots: &[Slot; 128], layout: &mut [LayoutSlot; 128], ids: &[u32])
    requires { Small ids.now }
    ensures { layout.new ≡ laid.arrange_all slots.now layout.old ids.now }
{
    // Outside of the loop, since each parent writes the places that it reads, and to zero 1.5 KB for each takes time.
    let mut grows = [0u32; 128];
    let mut shares = [0i64; 128];
    for id in ids {
        let i = *id as usize;
        let first = slots[i].first_child;
        if first >= 128 {
            continue;
        }
        let l = layout[i];
        let style = l.style;
        let d = style.direction;
        let mut sum = Lengths { main: 0, cross: 0 };
        let mut child = first;
        let mut n: u32 = 0;
        while (child < 128) & (n < 128) {
            let c = child as usize;
            let o = layout[c];
            let m = n as usize;
            grows[m] = o.style.grow;
            sum = with_child(sum, d, o);
            child = slots[c].next_sibling;
            n += 1;
        }
        let content = content_box(style.padding, l.rect);
        let room = axes(d, content.width, content.height);
        let leftover = leftover_of(style, room, sum, n);
        let grow = share_out(leftover, &grows, n, &mut shares);
        let free = counted(!grow, leftover);
        let mut at = run_start(style, room, free);
        let mut next = first;
        let mut passed: u32 = 0;
        while (next < 128) & (passed < 128) {
            let c = next as usize;
            let o = layout[c];
            let m = passed as usize;
            let growth = counted(grow, shares[m]);
            let b = child_box(style, content, at, growth, o);
            layout[c] = with_rect(o, b);
            at = past_child(style, at, growth, o);
            next = slots[c].next_sibling;
            passed += 1;
        }
    }
}

// A pass: the wanted sizes from the last of the order to the first, the viewport for the root, then the boxes.
pub fn solve(slots: &[Slot; 128], layout: &mut [LayoutSlot; 128], view: Viewport)
    ensures { layout.new ≡ laid.passed slots.now layout.old view }
{
    let order = reach_root(slots).order;
    let ids = order.as_slice();
    measure_all(slots, layout, ids);
    let root = layout[0];
    let rect = Rect {
        x: 0,
        y: 0,
        width: view.width,
        height: view.height,
    };
    layout[0] = with_rect(root, rect);
    arrange_all(slots, layout, ids);
}
