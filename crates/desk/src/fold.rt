// Ids in the fold, and the two folds that an event keeps: activations, and the edits that changed a field.
#![tactic(auto, using(arithmetic::proofs::FoldLaws::absorbed_in_turn))]

ghost use Rattle.std.specs.Prelude.{◌≡◌, ◌++◌};
ghost use Rattle.arithmetic.specs.Fold.{low_bytes, empty_hash, absorbed};
ghost use Rattle.arithmetic.specs.Scalar.{unsigned_of};
ghost use Rattle.desk.specs.Events.{id_bytes, maybe_bytes, op_code, key_bytes, pointer_bytes, interaction_bytes};

use crate::Key;
use arithmetic::fold::StateHash;
use arithmetic::scalar;
use field::{EditOp, NodeId};
use tree::{Interaction, Pixel};

// What stands for an absent id.
const ABSENT: NodeId = NodeId {
    index: 4294967295,
    generation: 0,
};

// The state after an id.
fn absorb_id(hash: StateHash, d: NodeId) -> StateHash
    ensures { result ≡ absorbed hash (id_bytes d) }
{
    hash.absorb_u32(d.index).absorb_u64(d.generation)
}

// The state after an id, or after what stands for none.
pub(crate) fn absorb_maybe(hash: StateHash, id: Option<NodeId>) -> StateHash
    ensures { result ≡ absorbed hash (maybe_bytes id) }
{
    absorb_id(hash, id.unwrap_or(ABSENT))
}

// The number of an edit.
fn op_code(op: EditOp) -> u64
    ensures { result ≡ op_code op }
{
    op as u64
}

// The state after a key.
fn absorb_key(hash: StateHash, key: Key) -> StateHash
    ensures { result ≡ absorbed hash (key_bytes key) }
{
    match key {
        Key::Char(c) => hash.absorb_u64(1).absorb_u64(u64::from(c)),
        Key::Op(op) => hash.absorb_u64(2).absorb_u64(op_code(op)),
    }
}

// The fold of the edits, after a key that changed the node's field.
pub(crate) fn edit_fold(before: u64, d: NodeId, key: Key) -> u64
    ensures { result ≡ (absorbed empty_hash (low_bytes 8 before ++ id_bytes d ++ key_bytes key)).state }
{
    let id = absorb_id(StateHash::new().absorb_u64(before), d);
    absorb_key(id, key).finish()
}

// The fold of the activations, after one of the node.
pub(crate) fn decision_fold(before: u64, d: NodeId) -> u64
    ensures { result ≡ (absorbed empty_hash (low_bytes 8 before ++ id_bytes d)).state }
{
    absorb_id(StateHash::new().absorb_u64(before), d).finish()
}

// The state after a pixel.
fn absorb_pixel(hash: StateHash, at: Pixel) -> StateHash
    ensures { result ≡ absorbed hash (low_bytes 4 (unsigned_of at.x) ++ low_bytes 4 (unsigned_of at.y)) }
{
    hash.absorb_u32(scalar::cast_unsigned(at.x))
        .absorb_u32(scalar::cast_unsigned(at.y))
}

// The state after the pointer: its pixel and 1, or three times 0 where it is nowhere.
#[tactic(auto, using(arithmetic::proofs::FoldLaws::absorbed_in_turn), unfolding(arithmetic::specs::Scalar::unsigned_of))]
fn absorb_pointer(hash: StateHash, pointer: Option<Pixel>) -> StateHash
    ensures { result ≡ absorbed hash (pointer_bytes pointer) }
{
    match pointer {
        None => absorb_pixel(hash, Pixel { x: 0, y: 0 }).absorb_u32(0),
        Some(at) => absorb_pixel(hash, at).absorb_u32(1),
    }
}

// The state after all that the tree remembers between events.
pub(crate) fn absorb_interaction(hash: StateHash, a: Interaction) -> StateHash
    ensures { result ≡ absorbed hash (interaction_bytes a) }
{
    let pointer = absorb_pointer(hash, a.pointer);
    let pressed = absorb_maybe(pointer, a.pressed);
    absorb_maybe(pressed, a.focus)
        .absorb_u64(a.activations)
        .absorb_u64(a.decisions)
        .absorb_u64(a.overflowed)
        .absorb_u64(a.edit_fold)
}
