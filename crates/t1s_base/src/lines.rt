// Lines of text in a fixed room.
ghost use Rattle.std.specs.Prelude.{◌≡◌, ◌+◌, ◌≤◌, ◌↔◌, [], ◌++◌, length, decimal, IsOk, OnOk, OnErr};

use arrayvec::ArrayVec;
use itoa::Buffer;
use std::marker::Model;

/// How many octets a line has at most.
const LINE_ROOM: usize = 4096;

/// A line of at most 4096 octets, in a room of its own. Contracts see the list of its octets.
#[derive(Drop)]
pub struct Line {
    octets: ArrayVec<u8, LINE_ROOM>,
}

impl Model for Line {
    ghost use Rattle.std.specs.Prelude.{List, ℕ};

    ghost Value = { List ℕ };

    ghost view = { λ line. line.octets.items };
}

impl Line {
    /// An empty line.
    pub fn new() -> Line
        ensures { result ≡ [] }
    {
        Line {
            octets: ArrayVec::new(),
        }
    }

    /// Its octets, 4096 at most.
    pub fn as_slice(&self) -> &[u8]
        ensures value { result.now ≡ self.now }
        ensures fits { length self.now ≤ 4096 }
    {
        self.octets.as_slice()
    }

    /// Takes all octets out. The room stays as it is: nothing in it is written.
    pub fn clear(&mut self)
        ensures { self.new ≡ [] }
    {
        self.octets.clear();
    }
}

/// The line would pass 4096 octets.
#[derive(Clone, Copy, Debug, PartialEq, Eq)]
pub struct NoRoom;

/// Appends the text, or leaves the line as it was where it would pass 4096 octets.
pub fn put_text(out: &mut Line, text: &[u8]) -> Result<(), NoRoom>
    ensures answer { IsOk result ↔ (length out.old + length text.now ≤ 4096) }
    ensures fits { length out.old + length text.now ≤ 4096 → out.new ≡ out.old ++ text.now }
    ensures ok { OnOk result (out.new ≡ out.old ++ text.now) }
    ensures err { OnErr result (out.new ≡ out.old) }
{
    match out.octets.try_extend_from_slice(text) {
        Ok(()) => Ok(()),
        Err(_) => Err(NoRoom),
    }
}

/// Appends the decimal digits of the number, or leaves the line as it was where it would pass 4096 octets.
pub fn put_number(out: &mut Line, n: u64) -> Result<(), NoRoom>
    ensures answer { IsOk result ↔ (length out.old + length (decimal n) ≤ 4096) }
    ensures fits { length out.old + length (decimal n) ≤ 4096 → out.new ≡ out.old ++ decimal n }
    ensures ok { OnOk result (out.new ≡ out.old ++ decimal n) }
    ensures err { OnErr result (out.new ≡ out.old) }
{
    let mut digits = Buffer::new();
    put_text(out, digits.format(n).as_bytes())
}
