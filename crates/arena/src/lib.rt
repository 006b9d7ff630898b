// Slots, their links and the ids that name them; the link rules; the fields and their owners. All over arrays that are lent.
#![tactic(auto)]

pub mod fields;
pub mod links;
pub mod listed;
pub mod rules;

// A slot's links. Of a dead slot only the next link means something: the free chain's.
// Kept: `live` beside the links and no variant, since document 01's rules and digest speak of every number of a slot, a dead one's too.
#[derive(Clone, Copy, Debug, Default, PartialEq, Eq)]
pub struct Slot {
    pub generation: u64,
    pub live: bool,
    pub parent: u32,
    pub first_child: u32,
    pub last_child: u32,
    pub prev_sibling: u32,
    pub next_sibling: u32,
}
