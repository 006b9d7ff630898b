// How the values of a vector are written.
use std::fmt::Display;
use std::{fmt, io};
use text::refusal::Refusal;

pub(crate) fn heading(rt: &impl Print, name: &str) -> io::Result<()> {
    println!(rt; "# {name}")
}

// Bytes in base sixteen, a space before each.
#[derive(Drop)]
pub struct Spaced<'a>(pub &'a [u8]);

impl Display for Spaced<'_> {
    fn fmt<W: fmt::Write>(&self, f: &mut fmt::Formatter<W>) -> fmt::Result {
        for b in self.0 {
            write!(f, " {b:02x}")?;
        }
        Ok(())
    }
}

// What a text measures, in raw units, or the number that refuses it.
#[derive(Drop)]
pub struct Width(pub Result<i64, Refusal>);

impl Display for Width {
    fn fmt<W: fmt::Write>(&self, f: &mut fmt::Formatter<W>) -> fmt::Result {
        match self.0 {
            Ok(w) => write!(f, "width {w}"),
            Err(word) => write!(f, "refused {}", word.number()),
        }
    }
}
