//! The lines of a source.
ghost use Rattle.std.specs.Prelude.{◌≡◌, ◌+◌, ◌<◌, ◌≤◌, List, ℕ, [], length, take, drop, slice_index, IfOk, IfErr, OnOk, OnErr};
ghost use Rattle.std.specs.Io.KnownBytes.{Keeps};
ghost use Rattle.tm_ports.specs.Faults.{HasCause};
ghost use Rattle.tm_ports.specs.Found.{Finds, Fills, IsRest, LineCause};
ghost use Rattle.tm_ports.specs.Lines.{IsLine, HasLine, Holds};

use crate::{Failed, Source};
use memchr::memchr;
use std::alloc::Global;
use std::marker::Model;
use tm_base::{ByteList, Mem, NoMemory};

/// The longest line that is taken, in bytes without its line feed.
pub const MAX_LINE: usize = 8192;

// How many bytes a reader holds at most.
const BUFFER: usize = 65536;

/// Why there was no line.
#[derive(Clone, Copy, Debug, PartialEq, Eq)]
pub enum LineError {
    /// The source failed.
    Failed,
    /// More than [`MAX_LINE`] bytes came without a line feed.
    TooLong,
    /// The memory for the line was not there.
    NoMemory,
}

impl From<NoMemory> for LineError {
    ghost use Rattle.tm_ports.specs.declared.lines.LineError.TheVariants.{NoMemory};

    ghost from_gives = { λ _ e. e ≡ NoMemory };

    fn from(_: NoMemory) -> Self {
        LineError::NoMemory
    }
}

/// What a reader of lines found.
#[derive(Debug, Drop)]
pub enum Found {
    /// A line that ended with a line feed, without it.
    Line(ByteList),
    /// The last line, which no line feed ended.
    Last(ByteList),
    /// The end of the input.
    End,
}

/// Reads the lines of a source, in pieces of up to 64 KiB.
///
/// Contracts see the bytes that were read and not yet handed out.
#[derive(Debug, Drop)]
pub struct LineReader {
    alloc: Global,
    buffer: Vec<u8>,
    // The held bytes are so many from the start, and the first `clear` of them have no line feed.
    start: usize,
    held: usize,
    clear: usize,
}

impl Model for LineReader {
    ghost use Rattle.std.specs.Prelude.{List, ℕ, take, drop};
    ghost use Rattle.tm_ports.specs.Lines.{IsHeld};

    ghost Value = { List ℕ };

    ghost view = { λ r. take r.held (drop r.start r.buffer.items) };

    ghost invariant = { λ r. IsHeld r.buffer.items r.start r.held r.clear };
}

// Moves these bytes to the front. The others may be any afterwards.
fn move_to_front(buffer: &mut [u8], start: usize, count: usize)
    requires { start + count ≤ length buffer.old }
    ensures len { length buffer.new ≡ length buffer.old }
    ensures front { take count buffer.new ≡ take count (drop start buffer.old) }
{
    if start > 0 {
        buffer.copy_within(start..start + count, 0);
    }
}

// Moves the held bytes to the front, and reads once behind them.
fn refill<R: Source>(
    buffer: &mut [u8],
    start: usize,
    held: usize,
    source: &mut R,
) -> Result<usize, Failed>
    requires inside { start + held ≤ length buffer.old }
    requires room { held < length buffer.old }
    ensures len { length buffer.new ≡ length buffer.old }
    ensures within { IfOk result (λ n. held + n ≤ length buffer.new) }
    ensures ok { IfOk result (λ n. Fills (R.left source.old) (R.left source.new) (take held (drop start buffer.old)) (take (held + n) buffer.new) n) }
    ensures err { OnErr result (Keeps (R.left source.old) (R.left source.new) × (take held buffer.new ≡ take held (drop start buffer.old))) }
    ensures cause { HasCause (R.count source.old) (R.count source.new) result }
{
    move_to_front(buffer, start, held);
    match source.read(&mut buffer[held..]) {
        Ok(count) => Ok(count),
        Err(error) => Err(error),
    }
}

// Where the first line feed stands, or how many bytes there are.
fn feed_at(bytes: &[u8]) -> usize
    ensures within { result ≤ length bytes.now }
    ensures before { IsLine (take result bytes.now) }
    ensures found { result < length bytes.now → slice_index bytes.now result ≡ 10 }
{
    memchr(b'\n', bytes).unwrap_or(bytes.len())
}

impl LineReader {
    /// Holds nothing. Its buffer is the only memory that it takes beside the lines.
    pub fn new(alloc: Global) -> Mem<LineReader>
        ensures { IfOk result (λ reader. reader ≡ []) }
    {
        Ok(LineReader {
            alloc,
            buffer: vec![in alloc; 0; BUFFER]?,
            start: 0,
            held: 0,
            clear: 0,
        })
    }

    /// Hands out the next line of at most [`MAX_LINE`] bytes, or says that the input ended.
    ///
    /// It reads only while no line is held. An error hands out nothing and loses nothing: the bytes
    /// that were read are held, and the call may be made again.
    pub fn next_line<R: Source>(&mut self, source: &mut R) -> Result<Found, LineError>
        ensures found { IfOk result (λ answer. Finds (R.left source.old) (R.left source.new) self.old self.new answer) }
        ensures ready { HasLine self.old → source.new ≡ source.old }
        ensures kept { OnErr result (Holds (R.left source.old) (R.left source.new) self.old self.new) }
        ensures cause { IfErr result (λ e. LineCause e self.new (R.count source.old) (R.count source.new)) }
        ensures later { R.count source.old ≤ R.count source.new }
    {
        loop {
            let end = self.line_end();
            if end > MAX_LINE {
                return Err(LineError::TooLong);
            }
            if end < self.len() {
                return Ok(Found::Line(self.take_line(end)?));
            }
            match self.fill(source) {
                Ok(0) => return Ok(self.take_rest()?),
                Ok(_) => {}
                Err(Failed) => return Err(LineError::Failed),
            }
        }
    }

    // How many bytes are held.
    fn len(&self) -> usize
        ensures { result ≡ length self.now }
    {
        self.held
    }

    // Where the first line feed stands, or how many bytes are held. No byte is looked at twice.
    fn line_end(&mut self) -> usize
        ensures same { self.new ≡ self.old }
        ensures within { result ≤ length self.old }
        ensures before { IsLine (take result self.old) }
        ensures found { result < length self.old → slice_index self.old result ≡ 10 }
    {
        let from = self.start + self.clear;
        let to = self.start + self.held;
        self.clear += feed_at(&self.buffer[from..to]);
        self.clear
    }

    // Hands out a line of this length, and passes over its line feed.
    fn take_line(&mut self, count: usize) -> Mem<ByteList>
        requires { count < length self.old }
        ensures line { IfOk result (λ line. line ≡ take count self.old) }
        ensures rest { OnOk result (self.new ≡ drop (count + 1) self.old) }
        ensures err { OnErr result (self.new ≡ self.old) }
    {
        let end = self.start + count;
        let line = ByteList::from_slice(self.alloc, &self.buffer[self.start..end])?;
        self.start += count + 1;
        self.held -= count + 1;
        self.clear = 0;
        Ok(line)
    }

    // Hands out what is held at the end of the input, which is the last line if it is anything.
    fn take_rest(&mut self) -> Mem<Found>
        ensures rest { IfOk result (λ answer. IsRest answer self.old) }
        ensures empty { OnOk result (self.new ≡ []) }
        ensures err { OnErr result (self.new ≡ self.old) }
    {
        if self.held == 0 {
            return Ok(Found::End);
        }
        let end = self.start + self.held;
        let last = ByteList::from_slice(self.alloc, &self.buffer[self.start..end])?;
        self.held = 0;
        self.clear = 0;
        Ok(Found::Last(last))
    }

    // Reads once, behind what is held.
    fn fill<R: Source>(&mut self, source: &mut R) -> Result<usize, Failed>
        requires { length self.old ≤ 8192 }
        ensures ok { IfOk result (λ n. Fills (R.left source.old) (R.left source.new) self.old self.new n) }
        ensures err { OnErr result (Keeps (R.left source.old) (R.left source.new) × (self.new ≡ self.old)) }
        ensures cause { HasCause (R.count source.old) (R.count source.new) result }
    {
        match refill(&mut self.buffer, self.start, self.held, source) {
            Ok(count) => {
                self.start = 0;
                self.held += count;
                Ok(count)
            }
            Err(error) => {
                self.start = 0;
                Err(error)
            }
        }
    }
}
