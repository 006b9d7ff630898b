// The two starts: the tree that has its root alone, with the pointer nowhere or at (0, 0).
ghost use Rattle.std.specs.Prelude.{◌≡◌};
ghost use Rattle.tree.specs.Answers.{changed_of};
ghost use Rattle.tree.specs.Calls.{fresh, new_tree};

use crate::answers::{Changed, Reply};
use crate::{Interaction, Pixel, StartKind, StatePatch, Ui, UiLimits, Viewport};
use arena::links::NIL;
use boxes::start;
use field::{Field, NodeId};
use text::refusal::Refusal;

// No node.
const NOBODY: NodeId = NodeId {
    index: 0,
    generation: 0,
};

// The smallest tree: its root alone in one slot, with the pointer as given.
#[tactic(auto, unfolding(crate::specs::Calls::fresh))]
fn smallest(pointer: Option<Pixel>) -> Ui
    ensures { result ≡ fresh pointer 1 }
{
    Ui {
        slots: start::new_slots(1),
        layout: start::fresh_layouts(),
        dirty: true,
        solved_for: Viewport {
            width: 0,
            height: 0,
        },
        interaction: Interaction {
            pointer,
            pressed: None,
            focus: None,
            activations: 0,
            decisions: 0,
            edit_fold: 0,
            overflowed: 0,
        },
        outputs: [NOBODY; 128],
        output_count: 0,
        states: start::fresh_states(),
        patches: [StatePatch {
            style: start::fresh_style(),
            touches_layout: false,
        }; 64],
        patch_count: 0,
        stated: [0; 3],
        stated_count: 0,
        layout_passes: 0,
        free: NIL,
        live: 1,
        limits: UiLimits { nodes: 1 },
        fields: [Field::empty(); 8],
    }
}

// What a start gives. A limit of 0 means 1; above 128 it is refused, and the tree has the limit 1. The tree gets its slots where the answer
// has it: one built before would be copied into the answer.
#[tactic(auto, unfolding(crate::specs::Calls::fresh, crate::specs::Calls::new_tree, arithmetic::specs::Tests::same))]
pub fn new_tree(kind: StartKind, n: u32) -> Changed
    ensures { changed_of result ≡ new_tree kind n }
{
    let mut c = Reply {
        tree: smallest(start::first_pointer(kind)),
        answer: Err(Refusal::Large),
    };
    if n <= 128 {
        let nodes = n.max(1);
        c.tree.slots = start::new_slots(nodes);
        c.tree.free = if 1 < nodes { 1 } else { NIL };
        c.tree.limits = UiLimits { nodes };
        c.answer = Ok(());
    }
    c
}
