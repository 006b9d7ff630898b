// What waits for a later call: patches for the next `pool`, and a label's bytes for the next `lines`. Of both one more may wait than the call
// takes, so that a script can show its refusal.
use arrayvec::ArrayVec;
use std::fmt::Display;
use std::io;
use std::io::Write;
use tree::{Size, StatePatch, Style};

// How much waits then; malformed where that would be more than may wait.
fn answer<T: Display + Drop>(out: &mut impl Write, waiting: Option<T>) -> io::Result<()> {
    match waiting {
        Some(n) => writeln!(out, "0 {n}"),
        None => writeln!(out, "?"),
    }
}

// Patches, up to 65. The last one is counted and never read, and so is not kept.
#[derive(Clone, Copy)]
pub struct Patches {
    pub items: [StatePatch; 64],
    pub count: u32,
}

impl Patches {
    pub(crate) fn none() -> Patches {
        let none = StatePatch {
            style: Style::sized(Size::Auto, Size::Auto),
            touches_layout: false,
        };
        Patches {
            items: [none; 64],
            count: 0,
        }
    }

    // One more, where there is room.
    fn push(&mut self, patch: StatePatch) -> Option<u32> {
        if 64 < self.count {
            return None;
        }
        if let Some(place) = self.items.get_mut(self.count as usize) {
            *place = patch;
        }
        self.count += 1;
        Some(self.count)
    }

    pub(crate) fn add(&mut self, out: &mut impl Write, patch: StatePatch) -> io::Result<()> {
        let waiting = self.push(patch);
        answer(out, waiting)
    }
}

// A label's bytes behind those that wait, all or none of them.
pub(crate) fn add_bytes(
    out: &mut impl Write,
    label: &mut ArrayVec<u8, 1100>,
    more: &[u8],
) -> io::Result<()> {
    let added = label.try_extend_from_slice(more);
    answer(out, added.ok().map(|_| label.len()))
}
