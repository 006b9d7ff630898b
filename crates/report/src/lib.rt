// What programs have in common: the lines of a script, the words of a line and what they write, and how an answer is written.
#![tactic(auto)]

pub mod pipes;
pub mod shown;
pub mod words;
