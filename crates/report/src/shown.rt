// How an answer is written.
ghost use Rattle.std.specs.Prelude.{if◌then◌else◌, Some, codes};

use std::fmt;
use std::fmt::Display;

// Whether something is so.
#[derive(Drop)]
pub struct YesNo(pub bool);

impl Display for YesNo {
    ghost output = { λ answer. Some (if answer.0 then codes "yes" else codes "no") };

    fn fmt<W: fmt::Write>(&self, f: &mut fmt::Formatter<W>) -> fmt::Result {
        write!(f, "{}", if self.0 { "yes" } else { "no" })
    }
}
