// Standard input by lines, beside an output that is written through a buffer. Both buffers have a fixed size, so that no heap is asked for.
ghost use Rattle.std.specs.Prelude.{◌≡◌, ◌≤◌, ◌+◌, [], IfOk, IfSome, OnErr, OnOk, length};
ghost use Rattle.arrayvec.specs.ArrayVec.{array_vec_len};

use arrayvec::ArrayVec;
use std::io;
use std::io::{ErrorKind, Read, Write};

// The most bytes of a line, and one more, since a line may have 1,024 without its newline; and how many are read at a time.
const LINE: usize = 1025;

const READ: usize = 4096;

// A reader behind a buffer, in which a line lies whole: `got` bytes stand there, the line from `at` to `end`, and what was read ahead behind it.
#[derive(Drop)]
pub struct Input<R> {
    from: R,
    chunk: [u8; 5121],
    at: usize,
    end: usize,
    got: usize,
}

impl<R: Read> Input<R> {
    pub fn new(from: R) -> Input<R>
        ensures { (result.from ≡ from) × (result.at ≡ 0) × (result.end ≡ 0) × (result.got ≡ 0) }
    {
        Input {
            from,
            chunk: [0; 5121],
            at: 0,
            end: 0,
            got: 0,
        }
    }

    // What was read and is not yet behind the line.
    fn ahead(&self) -> &[u8] {
        self.chunk.get(self.at..self.got).unwrap_or(&[])
    }

    // More is read behind what there is, which moves to the front; whether there was more. Before that what waits in the output is written.
    #[inline(never)]
    fn fill(&mut self, out: &mut impl Write) -> io::Result<bool> {
        out.flush()?;
        let got = self.got.min(LINE + READ);
        let at = self.at.min(got);
        let left = got - at;
        self.chunk.copy_within(at..got, 0);
        self.at = 0;
        self.got = left;
        let room = (left + READ).min(LINE + READ);
        let n = read_some(&mut self.from, &mut self.chunk[left..room])?;
        self.got = left.saturating_add(n);
        Ok(0 < n)
    }

    // How long the line is that comes next: with its newline, where it is no longer than a line may be. What was read ahead may have moved, so
    // that at an error the line before ends where that begins: the next call passes over none of it.
    fn find(&mut self, out: &mut impl Write) -> io::Result<usize>
        ensures most { IfOk result (λ n. n ≤ 1025) }
        ensures kept { OnErr result (self.new.end ≡ self.new.at) }
    {
        // A turn reads one byte or more.
        for _ in 0..LINE {
            if let Some(n) = whole(self.ahead()) {
                return Ok(n);
            }
            match self.fill(out) {
                Ok(true) => {}
                Ok(false) => break,
                Err(e) => {
                    self.end = self.at;
                    return Err(e);
                }
            }
        }
        Ok(self.ahead().len().min(LINE))
    }
}

// What one read gives. A read that a signal cut short is made again.
fn read_some(from: &mut impl Read, chunk: &mut [u8]) -> io::Result<usize> {
    for _ in 0..u32::MAX {
        match from.read(chunk) {
            Err(e) if e.kind() == ErrorKind::Interrupted => {}
            answer => return answer,
        }
    }
    from.read(chunk)
}

// A writer behind a buffer. What waits in it is lost where it is not flushed.
#[derive(Drop)]
pub struct Output<W, const N: usize> {
    to: W,
    held: ArrayVec<u8, N>,
}

impl<W: Write, const N: usize> Output<W, N> {
    pub fn new(to: W) -> Output<W, N>
        ensures { (result.to ≡ to) × (result.held.items ≡ []) }
    {
        Output {
            to,
            held: ArrayVec::new(),
        }
    }

    // What waits is written, where fewer than `room` bytes more have room: an answer of so many bytes is then written whole.
    pub fn make_room(&mut self, room: usize) -> io::Result<()>
        ensures { OnOk result (room ≤ N → array_vec_len self.new.held + room ≤ N) }
    {
        if self.held.remaining_capacity() < room {
            self.flush()?;
        }
        Ok(())
    }
}

impl<W: Write, const N: usize> Write for Output<W, N> {
    // As many bytes as there is room for.
    fn write(&mut self, buf: &[u8]) -> io::Result<usize> {
        if self.held.is_full() {
            self.flush()?;
        }
        self.held.write(buf)
    }

    // All of `buf` at once, behind what waits or, where there is no room, after that is written. What no buffer holds is not put in one.
    fn write_all(&mut self, buf: &[u8]) -> io::Result<()> {
        self.make_room(buf.len())?;
        match self.held.try_extend_from_slice(buf) {
            Ok(()) => Ok(()),
            Err(_) => self.to.write_all(buf),
        }
    }

    fn flush(&mut self) -> io::Result<()>
        ensures ok { OnOk result (self.new.held.items ≡ []) }
    {
        self.to.write_all(self.held.as_slice())?;
        self.held.clear();
        self.to.flush()
    }
}

// How long a text's first line is, its newline included, or the most bytes where it is longer; none where its end has yet to come.
fn whole(text: &[u8]) -> Option<usize>
    ensures { IfSome result (λ n. n ≤ 1025) }
{
    let front = &text[..text.len().min(LINE)];
    match front.iter().position(|b| *b == b'\n') {
        Some(k) => Some(k + 1),
        None if front.len() == LINE => Some(LINE),
        None => None,
    }
}

// The next line, its newline included: nothing at the input's end, and at most 1,025 bytes, one more than a line may have without its newline.
// What waits in the output is written before more is read, so that a person sees an answer before the next line. After an error the next call
// gives the line whole, with what was read of it before.
pub fn next_line<'a, R: Read>(input: &'a mut Input<R>, out: &mut impl Write) -> io::Result<&'a [u8]>
    ensures { IfOk result (λ line. length line.now ≤ 1025) }
{
    input.at = input.end;
    let n = input.find(out)?;
    input.end = input.at.saturating_add(n);
    let ahead = input.ahead();
    Ok(&ahead[..n.min(ahead.len())])
}

#[cfg(test)]
mod tests {
    use super::*;
    use std::test::Fail;

    #[test]
    fn lines_of_a_text(rt: HostRuntime) -> Result<(), Fail> {
        let front: &[u8] = b"on";
        let back: &[u8] = b"e\n\nlast";
        let mut input = Input::new(front.chain(back));
        let mut out = Vec::new(rt.alloc());
        for wanted in ["one\n", "\n", "last", ""] {
            let line = next_line(&mut input, &mut out)?;
            assert_eq!(rt; line, wanted.as_bytes());
        }
        Ok(())
    }

    #[test]
    fn a_line_is_cut(rt: HostRuntime) -> Result<(), Fail> {
        let text = [b'x'; 1026];
        let mut input = Input::new(text.as_slice());
        let mut out = Vec::new(rt.alloc());
        assert_eq!(rt; next_line(&mut input, &mut out)?.len(), 1025);
        assert_eq!(rt; next_line(&mut input, &mut out)?.len(), 1);
        Ok(())
    }

    // Two pieces, and a failure between them.
    #[derive(Drop)]
    struct Torn<'a> {
        front: &'a [u8],
        failed: bool,
        back: &'a [u8],
    }

    impl Read for Torn<'_> {
        fn read(&mut self, buf: &mut [u8]) -> io::Result<usize> {
            if !self.front.is_empty() {
                return self.front.read(buf);
            }
            if !self.failed {
                self.failed = true;
                return Err(io::Error::from(ErrorKind::WouldBlock));
            }
            self.back.read(buf)
        }
    }

    #[test]
    fn a_line_stays_whole_after_an_error(rt: HostRuntime) -> Result<(), Fail> {
        let mut input = Input::new(Torn {
            front: b"one\nthe fi",
            failed: false,
            back: b"rst\nlast",
        });
        let mut out = Vec::new(rt.alloc());
        assert_eq!(rt; next_line(&mut input, &mut out)?, b"one\n".as_slice());
        assert_eq!(rt; next_line(&mut input, &mut out).is_err(), true);
        for wanted in ["the first\n", "last", ""] {
            assert_eq!(rt; next_line(&mut input, &mut out)?, wanted.as_bytes());
        }
        Ok(())
    }

    #[test]
    fn a_piece_stays_whole(rt: HostRuntime) -> Result<(), Fail> {
        let mut out = Output::<_, 4>::new(Vec::new(rt.alloc()));
        out.write_all(b"abc")?;
        out.write_all(b"de")?;
        assert_eq!(rt; out.to.as_slice(), b"abc".as_slice());
        out.write_all(b"longer")?;
        assert_eq!(rt; out.to.as_slice(), b"abcdelonger".as_slice());
        out.write_all(b"just")?;
        assert_eq!(rt; out.to.as_slice(), b"abcdelonger".as_slice());
        out.write_all(b"f")?;
        out.flush()?;
        assert_eq!(rt; out.to.as_slice(), b"abcdelongerjustf".as_slice());
        Ok(())
    }
}
