// Reads a source line by line, and holds no more than a line and a piece.
ghost use Rattle.std.specs.Prelude.{◌≡◌, ◌+◌, ◌<◌, ◌≤◌, ◌++◌, ℕ, List, [], drop, take, length, vec_len, Ok, Err, IfOk};
ghost use Rattle.std.specs.Io.KnownBytes.{IsAtEnd};
ghost use Rattle.std.specs.Str.Lines.{strip_carriage_return};

use crate::front_line::{FrontLine, LineKind, ReadFault};
use crate::limits::LINE_LIMIT;
use crate::scan::find_byte;
use gr_io::Source;
use std::alloc::Global;
use std::marker::Model;

/// How many bytes are pulled at a time.
const PIECE: usize = 4096;

/// How many of the first bytes are left without the one carriage return at their end.
fn without_return(bytes: &[u8], end: usize) -> usize
    requires { end ≤ length bytes.now }
    ensures within { result ≤ end }
    ensures line { take result bytes.now ≡ strip_carriage_return (take end bytes.now) }
{
    if end > 0 && bytes[end - 1] == b'\r' {
        end - 1
    } else {
        end
    }
}

/// The bytes that were pulled and not taken yet.
#[derive(Drop)]
pub struct LineReader {
    buffer: Vec<u8>,
    start: usize,
}

impl Model for LineReader {
    ghost Value = { List ℕ };

    ghost view = { λ r. drop r.start r.buffer.items };

    ghost invariant = { λ r. r.start ≤ vec_len r.buffer };
}

impl LineReader {
    ghost use Rattle.script_run.specs.Reading.{Finds, Reads, FailsBy, IsUnended};
    ghost use Rattle.script_run.specs.declared.front_line.ReadFault.TheVariants.{Failed, Memory};

    /// A reader that holds nothing; takes no memory.
    pub fn new(alloc: Global) -> Self
        ensures { result ≡ [] }
    {
        LineReader {
            buffer: Vec::new(alloc),
            start: 0,
        }
    }

    /// The bytes that are held.
    pub fn held(&self) -> &[u8]
        ensures { result.now ≡ self.now }
    {
        &self.buffer[self.start..]
    }

    /// Lets the first bytes go.
    pub fn skip(&mut self, count: usize)
        requires { count ≤ length self.old }
        ensures { self.new ≡ drop count self.old }
    {
        self.start += count;
    }

    // Pulls a piece. Where memory is refused, nothing was pulled.
    fn fill<S: Source>(&mut self, source: &mut S) -> Result<usize, ReadFault>
        ensures reads { Reads (S.left source.old) (S.left source.new) self.old self.new }
        ensures grows { IfOk result (λ count. length self.new ≡ length self.old + count) }
        ensures end { result ≡ Ok 0 → IsAtEnd (S.left source.new) × (self.new ≡ self.old) }
        ensures failed { result ≡ Err Failed → self.new ≡ self.old }
        ensures cause { FailsBy result (S.faults source.old) (S.faults source.new) }
    {
        self.buffer.rotate_left(self.start);
        self.buffer.truncate(self.buffer.len() - self.start);
        self.start = 0;
        if self.buffer.reserve(PIECE).is_err() {
            return Err(ReadFault::Memory);
        }
        let mut piece = [0u8; PIECE];
        match source.pull(&mut piece) {
            Err(_) => Err(ReadFault::Failed),
            Ok(count) => match self.buffer.extend_from_slice(&piece[..count]) {
                Ok(()) => Ok(count),
                Err(_) => unreachable!(),
            },
        }
    }

    /// Pulls until a line is whole, or too long, or nothing is left. What was pulled is held, whatever the answer.
    /// Linear in the bytes that are held for each piece that is pulled.
    pub fn find<S: Source>(&mut self, source: &mut S) -> Result<Option<FrontLine>, ReadFault>
        ensures reads { Reads (S.left source.old) (S.left source.new) self.old self.new }
        ensures found { IfOk result (λ found. Finds found self.new (S.left source.new)) }
        ensures failed { result ≡ Err Failed → IsUnended self.new }
        ensures cause { FailsBy result (S.faults source.old) (S.faults source.new) }
    {
        loop {
            let held = self.held();
            let len = held.len();
            let at = find_byte(held, b'\n');
            if at < len {
                let len = without_return(held, at);
                return Ok(Some(FrontLine {
                    len,
                    taken: at + 1,
                    kind: LineKind::Whole,
                }));
            }
            if len > LINE_LIMIT + 1 {
                return Ok(Some(FrontLine {
                    len,
                    taken: len,
                    kind: LineKind::Long,
                }));
            }
            if self.fill(source)? == 0 {
                if len == 0 {
                    return Ok(None);
                }
                return Ok(Some(FrontLine {
                    len,
                    taken: len,
                    kind: LineKind::Last,
                }));
            }
        }
    }
}
