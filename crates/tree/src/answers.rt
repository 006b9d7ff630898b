// What a call answers that gives a tree or a text: the next tree stands beside the answer, accepted or refused.
use crate::Ui;
use field::NodeId;
use text::refusal::Refusal;

// An answer, and the next tree.
#[derive(Clone, Copy)]
pub struct Reply<T> {
    pub tree: Ui,
    pub answer: Result<T, Refusal>,
}

// Calls that give the next tree alone.
pub type Changed = Reply<()>;

// The id of a new node.
pub type Inserted = Reply<NodeId>;

// A text: its bytes, 0 past the length, and the length.
// Kept: an array with its length, as the field's own is.
#[derive(Clone, Copy, Debug, PartialEq, Eq)]
pub struct FieldText {
    pub bytes: [u8; 64],
    pub len: u8,
}
