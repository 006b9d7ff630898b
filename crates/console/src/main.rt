// The console: a script on standard input, a line on standard output for each call.
#![tactic(auto)]

mod calls;
mod digest;
mod label;
mod shown;
mod styles;
mod turn;
mod waiting;

use arrayvec::ArrayVec;
use calls::Call;
use report::pipes;
use report::pipes::{Input, Output};
use std::io;
use std::io::{IsTerminal, Write};
use tree::{Ui, UiLimits};
use waiting::Patches;

// The most bytes of a script, and of a line without its newline.
const SCRIPT: usize = 1048576;

const LINE: usize = 1024;

// No answer has so many bytes, but that of `lines`, whose places each have fewer.
const ANSWER: usize = 196;

// Tells a person at a terminal how to go on. Standard output carries the answers alone, so that this goes to standard error.
fn greet(rt: &impl Eprint, input: &impl IsTerminal) -> io::Result<()> {
    if input.is_terminal() {
        eprintln!(rt;
            "console: one call a line, as 'new 4' and then 'insert 0 1'; docs/CONSOLE.md lists all calls; Ctrl-D ends"
        )?;
    }
    Ok(())
}

// The tree goes on in the last answer. Each line takes one byte or more of the script.
fn main(rt: HostRuntime) -> io::Result<()> {
    greet(&rt, &rt.stdin())?;
    let mut input = Input::new(rt.stdin());
    let mut out = Output::<_, 4096>::new(io::writer(&rt));
    let mut c = Ui::new(UiLimits { nodes: 1 });
    let mut patches = Patches::none();
    let mut label = ArrayVec::new();
    let mut left = SCRIPT;
    for _ in 0..=SCRIPT {
        let line = pipes::next_line(&mut input, &mut out)?;
        let n = line.len();
        if n == 0 {
            break;
        }
        let text = match line {
            [text @ .., b'\n'] => text,
            text => text,
        };
        if LINE < text.len() || left < n {
            out.make_room(ANSWER)?;
            writeln!(out, "?")?;
            break;
        }
        left -= n;
        if matches!(text, [] | [b'#', ..]) {
            continue;
        }
        out.make_room(ANSWER)?;
        match calls::read(text) {
            None => writeln!(out, "?")?,
            Some(Call::Reading(reading)) => turn::asked(&mut out, &c.tree, reading)?,
            Some(Call::Change(change)) => {
                turn::changed(&mut c, change, &mut patches);
                turn::plain(&mut out, c.answer)?;
            }
            Some(Call::Insert(parent)) => turn::inserted(&mut out, &mut c, parent)?,
            Some(Call::Output) => turn::taken(&mut out, &mut c)?,
            Some(Call::Measure(bytes)) => {
                turn::answer(&mut out, text::measure(bytes.as_slice()), "0")?;
            }
            Some(Call::Patch(patch)) => {
                patches.add(&mut out, patch)?;
            }
            Some(Call::Label(more)) => {
                waiting::add_bytes(&mut out, &mut label, more.as_slice())?;
            }
            Some(Call::Lines(asked)) => {
                label::break_lines(&mut out, label.as_slice(), asked)?;
                label.clear();
            }
        }
    }
    out.flush()
}
