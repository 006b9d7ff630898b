// The tree: nodes in numbered slots, their links, styles, tables, boxes and fields, by value.
#![tactic(auto)]

pub mod answers;
mod calls;
pub mod input;
mod nodes;
mod reads;
pub mod rules;
mod start;
pub mod wearing;

ghost use Rattle.std.specs.Prelude.{◌≡◌, false, None};
ghost use Rattle.tree.specs.Answers.{precheck, field_place, changed_of, inserted_of, field_text_of};
ghost use Rattle.text.specs.Refusal.{answered};
ghost use Rattle.boxes.specs.Styles.{no_rect};
ghost use Rattle.tree.specs.Calls.{new_tree, insert, remove, live, rect, first_child, next_sibling, field_text, field_cursor, make_field, take_field, solve, set_style, set_state_table, set_patch_pool};
ghost use Rattle.boxes.specs.declared.StartKind.TheVariants.{New, AtOrigin};

use answers::{Changed, FieldText, Inserted, Reply};
pub use arena::{Slot, fields, links};
pub use boxes::{
    Align, Direction, Edges, LayoutSlot, Pixel, Rect, Size, StartKind, StatePatch, StateSlot,
    Style, Viewport, state,
};
use field::{Field, NodeId};
use text::refusal::Refusal;

// What the tree remembers between events.
#[derive(Clone, Copy, PartialEq, Eq)]
pub struct Interaction {
    pub pointer: Option<Pixel>,
    pub pressed: Option<NodeId>,
    pub focus: Option<NodeId>,
    pub activations: u64,
    pub decisions: u64,
    pub edit_fold: u64,
    pub overflowed: u64,
}

// The most nodes that a tree holds, its root included.
#[derive(Clone, Copy, PartialEq, Eq)]
pub struct UiLimits {
    pub nodes: u32,
}

// The tree. Slots from `limits.nodes` on, and places past a count, hold nothing.
// Kept: arrays with counts, and the tree itself by value, as document 01 has them in place of `Vec`s and `&mut self`.
#[derive(Clone, Copy, PartialEq, Eq)]
pub struct Ui {
    pub slots: [Slot; 128],
    pub layout: [LayoutSlot; 128],
    pub dirty: bool,
    pub solved_for: Viewport,
    pub interaction: Interaction,
    pub outputs: [NodeId; 128],
    pub output_count: u32,
    pub states: [StateSlot; 128],
    pub patches: [StatePatch; 64],
    pub patch_count: u32,
    pub stated: [u32; 3],
    pub stated_count: u32,
    pub layout_passes: u64,
    pub free: u32,
    pub live: u32,
    pub limits: UiLimits,
    pub fields: [Field; 8],
}

impl Ui {
    // A tree with its root alone, and the pointer nowhere. A limit of 0 means 1; above 128 it is refused, and the tree has the limit 1.
    // A hint keeps both starts out of their callers, whose frames would have room for a tree's parts.
    #[inline(never)]
    pub fn new(limits: UiLimits) -> Changed
        ensures { changed_of result ≡ new_tree New limits.nodes }
    {
        start::new_tree(StartKind::New, limits.nodes)
    }

    // The same with the pointer at (0, 0).
    // Kept: document 02 asks for a start of this kind beside the other; each is one call.
    #[inline(never)]
    pub fn at_origin(limits: UiLimits) -> Changed
        ensures { changed_of result ≡ new_tree AtOrigin limits.nodes }
    {
        start::new_tree(StartKind::AtOrigin, limits.nodes)
    }

    // The id of a new tree's root.
    pub fn root() -> NodeId
        ensures { result ≡ record { index = 0; generation = 1 } }
    {
        NodeId {
            index: 0,
            generation: 1,
        }
    }

    // Whether a call on a node is refused before anything else: the tree is broken, or the node is not live.
    #[tactic(auto, unfolding(crate::specs::Answers::precheck))]
    pub fn precheck(&self, d: NodeId) -> Result<(), Refusal>
        ensures { result ≡ precheck self.now d }
    {
        if rules::broken(self) {
            return Err(Refusal::Broken);
        }
        if !links::is_live(self.limits.nodes, &self.slots, d) {
            return Err(Refusal::Missing);
        }
        Ok(())
    }

    // Where a read finds the node's field: every read of a field is refused as this is.
    #[tactic(auto, unfolding(crate::specs::Answers::field_place))]
    pub fn field_place(&self, d: NodeId) -> Result<usize, Refusal>
        ensures { result ≡ field_place self.now d }
    {
        self.precheck(d)?;
        fields::field_place(&self.fields, d).ok_or(Refusal::Fieldless)
    }

    // Whether the id names a live node.
    pub fn is_live(self, d: NodeId) -> Result<bool, Refusal>
        ensures { answered false result ≡ (live self d).answer }
    {
        reads::is_live(&self, d)
    }

    // The node's box, of the last pass.
    pub fn rect(self, d: NodeId) -> Result<Rect, Refusal>
        ensures { answered no_rect result ≡ (rect self d).answer }
    {
        reads::rect(&self, d)
    }

    // The node's next sibling.
    pub fn next_sibling(self, d: NodeId) -> Result<Option<NodeId>, Refusal>
        ensures { answered None result ≡ (next_sibling self d).answer }
    {
        reads::next_sibling(&self, d)
    }

    // The node's first child; a dead node has none.
    pub fn first_child(self, d: NodeId) -> Result<Option<NodeId>, Refusal>
        ensures { answered None result ≡ (first_child self d).answer }
    {
        reads::first_child(&self, d)
    }

    // The text of the node's field, 0 past its length.
    pub fn field_text(self, d: NodeId) -> Result<FieldText, Refusal>
        ensures { field_text_of result ≡ (field_text self d).answer }
    {
        reads::field_text(&self, d)
    }

    // Where the caret of the node's field stands.
    pub fn field_cursor(self, d: NodeId) -> Result<u8, Refusal>
        ensures { answered 0 result ≡ (field_cursor self d).answer }
    {
        reads::field_cursor(&self, d)
    }

    // A new last child of a node.
    pub fn insert(mut self, parent: NodeId) -> Inserted
        ensures { inserted_of result ≡ insert self parent }
    {
        let answer = calls::insert(&mut self, parent);
        Reply { tree: self, answer }
    }

    // The node and all below it leave the tree.
    pub fn remove(mut self, d: NodeId) -> Changed
        ensures { changed_of result ≡ remove self d }
    {
        let answer = calls::remove(&mut self, d);
        Reply { tree: self, answer }
    }

    // A field for the node; one that it has stays.
    pub fn make_field(mut self, d: NodeId) -> Changed
        ensures { changed_of result ≡ make_field self d }
    {
        let answer = calls::make_field(&mut self, d);
        Reply { tree: self, answer }
    }

    // A layout pass, where one is due or the viewport is another.
    pub fn solve(mut self, view: Viewport) -> Changed
        ensures { changed_of result ≡ solve self view }
    {
        let answer = calls::solve(&mut self, view);
        Reply { tree: self, answer }
    }

    // The node's base style.
    pub fn set_style(mut self, d: NodeId, style: Style) -> Changed
        ensures { changed_of result ≡ set_style self d style }
    {
        let answer = calls::set_style(&mut self, d, style);
        Reply { tree: self, answer }
    }

    // The node's sixteen patch numbers.
    pub fn set_state_table(mut self, d: NodeId, table: [u16; 16]) -> Changed
        ensures { changed_of result ≡ set_state_table self d table }
    {
        let answer = calls::set_state_table(&mut self, d, table);
        Reply { tree: self, answer }
    }

    // The pool: the first `count` of the patches. Every table and all bits are cleared.
    // Kept: an array with a count, since that is the project's call: a count of 65 is refused by 7 with no patch behind it.
    pub fn set_patch_pool(mut self, patches: [StatePatch; 64], count: u32) -> Changed
        ensures { changed_of result ≡ set_patch_pool self patches count }
    {
        let answer = calls::set_patch_pool(&mut self, &patches, count);
        Reply { tree: self, answer }
    }
}
