// How the values of an answer are written.
use desk::MarkedText;
use field::NodeId;
use std::fmt;
use std::fmt::Display;
use tree::Rect;
use tree::answers::FieldText;

// An id, or none.
#[derive(Drop)]
pub struct Node(pub Option<NodeId>);

impl Display for Node {
    fn fmt<W: fmt::Write>(&self, f: &mut fmt::Formatter<W>) -> fmt::Result {
        match self.0 {
            None => write!(f, "none"),
            Some(d) => write!(f, "{} {}", d.index, d.generation),
        }
    }
}

// Left, top, width and height.
#[derive(Drop)]
pub struct Place(pub Rect);

impl Display for Place {
    fn fmt<W: fmt::Write>(&self, f: &mut fmt::Formatter<W>) -> fmt::Result {
        let at = self.0;
        write!(f, "{} {} {} {}", at.x, at.y, at.width, at.height)
    }
}

// The length of a field's text, and its bytes, two digits each.
#[derive(Drop)]
pub struct Typed(pub FieldText);

impl Display for Typed {
    fn fmt<W: fmt::Write>(&self, f: &mut fmt::Formatter<W>) -> fmt::Result {
        let text = &self.0;
        let n = text.len;
        if n == 0 {
            return write!(f, "0 -");
        }
        write!(f, "{n} ")?;
        for b in text.bytes.iter().take(usize::from(n)) {
            write!(f, "{b:02x}")?;
        }
        Ok(())
    }
}

// The same, the caret, and the number of the mark.
#[derive(Drop)]
pub struct Marked(pub MarkedText);

impl Display for Marked {
    fn fmt<W: fmt::Write>(&self, f: &mut fmt::Formatter<W>) -> fmt::Result {
        let t = self.0;
        let text = Typed(FieldText {
            bytes: t.bytes,
            len: t.len,
        });
        write!(f, "{text} {} {}", t.cursor, t.mark as u32)
    }
}

// HASH.
#[derive(Drop)]
pub struct Sum(pub u64);

impl Display for Sum {
    fn fmt<W: fmt::Write>(&self, f: &mut fmt::Formatter<W>) -> fmt::Result {
        write!(f, "{:016x}", self.0)
    }
}
