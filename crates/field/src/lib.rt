// The field: 64 bytes of UTF-8, a length, a caret and an owner. Edits move over whole characters.
#![tactic(auto)]

pub mod metres;

ghost use Rattle.std.specs.Prelude.{◌≡◌, ◌≤◌, true, false, Ok, Err};
ghost use Rattle.std.specs.Fn.{FnOnceReturnsAtMut};
ghost use Rattle.text.specs.declared.refusal.Refusal.TheVariants.{Broken};
ghost use Rattle.field.specs.declared.Mark.TheVariants.{Confirmed};
ghost use Rattle.field.specs.declared.Edited.{Edited};
ghost use Rattle.field.specs.Fields.{empty_field, own_field, held, in_range, text_ok, mark_ok, field_ok, with_mark, unconfirmed, cut_out, inserted, edited, shown_of, edit_answer, insert_answer, answer_of, field_metres, view_of, metres_of_view};
ghost use Rattle.text.specs.Refusal.{answered, verdict_of};

use text::refusal::Refusal;
use text::utf8;

// A node's address: a slot, and the generation that the slot had when the node was made.
#[derive(Clone, Copy, Debug, PartialEq, Eq)]
pub struct NodeId {
    pub index: u32,
    pub generation: u64,
}

// What a key asks of a field, but for a character, with the numbers that the source's fold of edits has.
#[derive(Clone, Copy, Debug, PartialEq, Eq)]
pub enum EditOp {
    Backspace = 1,
    Delete,
    Left,
    Right,
    Home,
    End,
}

// What became of a field's text: nothing yet, a key changed it, or it was confirmed as it stands.
#[derive(Clone, Copy, Debug, PartialEq, Eq)]
pub enum Mark {
    Untouched,
    Typed,
    Confirmed,
}

// A text of at most 64 bytes, and its mark. `cursor` is the caret, in bytes from the start.
// Kept: an array with its length, document 01's own form.
#[derive(Clone, Copy, Debug, PartialEq, Eq)]
pub struct Field {
    pub owner: Option<NodeId>,
    pub bytes: [u8; 64],
    pub len: u8,
    pub cursor: u8,
    pub mark: Mark,
}

// The answer of an edit asked by a caller, with the field beside it.
// Kept: beside the tree's `Reply`, which stands two crates above; a type over what stands beside the answer would be named at each use.
#[derive(Clone, Copy, Debug, PartialEq, Eq)]
pub struct Edited {
    pub verdict: Result<(), Refusal>,
    pub field: Field,
}

impl Field {
    // The field of nobody, with no text.
    #[tactic(auto, unfolding(crate::specs::Fields::empty_field))]
    pub fn empty() -> Field
        ensures { result ≡ empty_field }
    {
        Field {
            owner: None,
            bytes: [0u8; 64],
            len: 0,
            cursor: 0,
            mark: Mark::Untouched,
        }
    }

    // A node's new field, with no text.
    #[tactic(auto, unfolding(crate::specs::Fields::empty_field))]
    pub fn owned(d: NodeId) -> Field
        ensures { result ≡ own_field d }
    {
        Field {
            owner: Some(d),
            ..Field::empty()
        }
    }

    // The bytes of the text; all 64 where the length says more.
    fn held(&self) -> &[u8]
        ensures { result.now ≡ held self.now }
    {
        &self.bytes[..(self.len as usize).min(64)]
    }

    // Whether length and caret are in their places.
    #[tactic(auto, unfolding(crate::specs::Fields::in_range))]
    fn in_range(self) -> bool
        ensures { result ≡ in_range self }
    {
        (self.len <= 64) & (self.cursor <= self.len)
    }

    // Whether text and caret keep their rules.
    fn text_sound(self) -> bool
        ensures { result ≡ text_ok self }
    {
        if !self.in_range() {
            return false;
        }
        let whole = utf8::is_utf8(self.held());
        let before = utf8::is_utf8(&self.bytes[..self.cursor as usize]);
        whole & before
    }

    // Whether the mark may stand beside the text: what is confirmed reads as metres.
    fn mark_sound(self) -> bool
        ensures { result ≡ mark_ok self }
    {
        match self.mark {
            Mark::Confirmed => metres::metres_of(self.held()).is_ok(),
            _ => true,
        }
    }

    // Whether the field keeps the rules for one field.
    #[tactic(auto, unfolding(crate::specs::Fields::field_ok))]
    pub fn sound(self) -> bool
        ensures { result ≡ field_ok self }
    {
        self.text_sound() && self.mark_sound()
    }

    // The field without the bytes of its text from `from` to `to`, the caret at `from`.
    fn without(mut self, from: usize, to: usize) -> Field
        requires { (from ≤ to) × (to ≤ self.len) × (self.len ≤ 64) }
        ensures { result ≡ cut_out self from to }
    {
        let len = self.len as usize;
        self.bytes.copy_within(to..len, from);
        self.len -= (to - from) as u8;
        self.cursor = from as u8;
        if from < to {
            self.mark = Mark::Typed;
        }
        self
    }

    // The field after an edit. It asks nothing of the field: where length or caret are out of their places, it is left as it is.
    pub fn edit(mut self, op: EditOp) -> Field
        ensures { result ≡ edited self op }
    {
        if !self.in_range() {
            return self;
        }
        let k = self.cursor as usize;
        let text = self.held();
        match op {
            EditOp::Backspace => self.without(utf8::step_back(text, k), k),
            EditOp::Delete => self.without(k, utf8::step_forward(text, k)),
            EditOp::Left => Field {
                cursor: utf8::step_back(text, k) as u8,
                ..self
            },
            EditOp::Right => Field {
                cursor: utf8::step_forward(text, k) as u8,
                ..self
            },
            EditOp::Home => Field { cursor: 0, ..self },
            EditOp::End => Field {
                cursor: self.len,
                ..self
            },
        }
    }

    // The field with one character put in at the caret; where it has no room, or `ch` is no character, as it is. It asks nothing
    // of the field, as `edit`.
    pub fn insert(mut self, ch: u32) -> Field
        ensures { result ≡ inserted self ch }
    {
        let e = utf8::encode(ch);
        if !self.in_range() || e.len == 0 || 64 < self.len + e.len {
            return self;
        }
        let at = self.cursor as usize;
        let n = e.len as usize;
        let len = self.len as usize;
        self.bytes.copy_within(at..len, at + n);
        self.bytes[at..at + n].copy_from_slice(&e.bytes[..n]);
        self.len += e.len;
        self.cursor += e.len;
        self.mark = Mark::Typed;
        self
    }

    // An edit asked by a caller: a field that breaks the rules is refused and handed back.
    fn tried<F: FnOnce(Field) -> Field>(self, edit: F) -> Edited
        requires { F.IsAlwaysCallable edit }
        ensures sound { field_ok self ≡ true → F.post edit self result.field × (result.verdict ≡ Ok tt) }
        ensures broken { field_ok self ≡ false → result ≡ record { verdict = Err Broken; field = self } }
    {
        if !self.sound() {
            return Edited {
                verdict: Err(Refusal::Broken),
                field: self,
            };
        }
        Edited {
            verdict: Ok(()),
            field: edit(self),
        }
    }

    // A character, asked by a caller.
    // Kept: `insert` and `edit`, each tried, lent and here: document 01 names both, by value and lent. Each is a line over one helper.
    pub fn try_insert(self, ch: u32) -> Edited
        ensures { answer_of result ≡ insert_answer self ch }
    {
        self.tried(|f| f.insert(ch))
    }

    // An edit, asked by a caller, refused likewise.
    pub fn try_edit(self, op: EditOp) -> Edited
        ensures { answer_of result ≡ edit_answer self op }
    {
        self.tried(|f| f.edit(op))
    }

    // An edit of a field that is lent: its field is left behind the reference.
    fn lent<F: FnOnce(Field) -> Edited>(&mut self, edit: F) -> Result<(), Refusal>
        requires { F.IsAlwaysCallable edit }
        ensures { (e : Edited) × F.post edit self.old e × (result ≡ e.verdict) × (self.new ≡ e.field) }
    {
        let out = edit(*self);
        *self = out.field;
        out.verdict
    }

    // A character, put into a field that is lent: `try_insert` answers, and its field is left behind the reference, so that a field that
    // breaks the rules stays byte for byte as it was. A tree whose own field a caller edits so, or by `edit_lent`, is no longer the one that
    // the last call left: the next call checks it as it checks every tree, and takes a field that keeps the rules as it is.
    pub fn insert_lent(&mut self, ch: u32) -> Result<(), Refusal>
        ensures { (verdict_of result ≡ (insert_answer self.old ch).number) × (self.new ≡ (insert_answer self.old ch).value) }
    {
        self.lent(|f| f.try_insert(ch))
    }

    // An edit of a field that is lent, by `try_edit` likewise.
    pub fn edit_lent(&mut self, op: EditOp) -> Result<(), Refusal>
        ensures { (verdict_of result ≡ (edit_answer self.old op).number) × (self.new ≡ (edit_answer self.old op).value) }
    {
        self.lent(|f| f.try_edit(op))
    }

    // An edit of a lent field on a field of one's own.
    fn here<F: FnOnce(&mut Field) -> Result<(), Refusal>>(mut self, edit: F) -> Edited
        requires { F.IsAlwaysCallable edit }
        ensures { FnOnceReturnsAtMut F.FnOnce edit self result.verdict result.field }
    {
        let verdict = edit(&mut self);
        Edited {
            verdict,
            field: self,
        }
    }

    // `insert_lent` on a field of one's own, for callers that hold no reference.
    pub fn insert_here(mut self, ch: u32) -> Edited
        ensures { answer_of result ≡ insert_answer self ch }
    {
        self.here(|f| f.insert_lent(ch))
    }

    // `edit_lent`, likewise.
    pub fn edit_here(mut self, op: EditOp) -> Edited
        ensures { answer_of result ≡ edit_answer self op }
    {
        self.here(|f| f.edit_lent(op))
    }

    // The text, with 0 behind it.
    pub fn shown(mut self) -> [u8; 64]
        ensures { result ≡ shown_of self }
    {
        let n = self.held().len();
        self.bytes[n..].fill(0);
        self.bytes
    }

    // The text read as metres, in whole centimetres; a field that breaks the rules is refused.
    pub fn metres(self) -> Result<u32, Refusal>
        ensures { answered 0 result ≡ field_metres self }
    {
        if !self.sound() {
            return Err(Refusal::Broken);
        }
        metres::metres_of(self.held())
    }

    // The field with its text confirmed. It asks nothing of the text: who confirms one reads its metres first.
    #[tactic(auto, unfolding(crate::specs::Fields::with_mark))]
    pub fn confirmed(self) -> Field
        ensures { result ≡ with_mark self Confirmed }
    {
        Field {
            mark: Mark::Confirmed,
            ..self
        }
    }

    // The field for the next ship: the text stays, and is confirmed no more.
    #[tactic(auto, unfolding(crate::specs::Fields::with_mark, crate::specs::Fields::unconfirmed))]
    pub fn unconfirmed(self) -> Field
        ensures { result ≡ unconfirmed self }
    {
        match self.mark {
            Mark::Confirmed => Field {
                mark: Mark::Untouched,
                ..self
            },
            _ => self,
        }
    }

    // The confirmed text as metres. It asks nothing of the field: one that keeps the rules is refused by no other word.
    pub fn confirmed_metres(self) -> Result<u32, Refusal>
        ensures { answered 0 result ≡ metres_of_view (view_of self) }
    {
        match self.mark {
            Mark::Confirmed => metres::metres_of(self.held()),
            _ => Err(Refusal::Unconfirmed),
        }
    }
}
