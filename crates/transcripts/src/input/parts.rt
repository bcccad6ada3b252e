// One part more of an input, and when no more is needed.
ghost use Rattle.std.specs.Prelude.{◌≡◌, true, [], ◌++◌, is_ok, if◌then◌else◌, nat_le};
ghost use Rattle.texts.specs.Records.{feeds};
ghost use Rattle.transcripts.specs.Inputs.{bytes_of, Enough};

use crate::input::Input;
use crate::rooms::with_room;
use crate::runs::LIMIT;
use std::alloc::{AllocError, Global};
use texts::records::line_ends;

impl Input {
    // An input of which nothing is read.
    pub fn new(heap: Global) -> Input
        ensures { bytes_of result ≡ [] }
    {
        Input {
            bytes: with_room(heap, 16_777_216),
            ends: 0,
        }
    }

    // Adds a part, or nothing for want of memory.
    pub fn add(&mut self, part: &[u8]) -> Result<(), AllocError>
        ensures { bytes_of self.new ≡ (if is_ok result then bytes_of self.old ++ part.now else bytes_of self.old) }
    {
        let more = line_ends(part);
        self.bytes.extend_from_slice(part)?;
        self.ends += more;
        Ok(())
    }

    // Whether every record that counts is there: whatever follows, the output is the same.
    pub fn is_enough(&self) -> bool
        ensures value { result ≡ nat_le 1000000 (feeds (bytes_of self.now)) }
        ensures enough { result ≡ true → Enough (bytes_of self.now) }
    {
        // 32 bits have no `From` into `usize`.
        self.ends >= LIMIT as usize
    }

    // The bytes so far.
    pub fn as_slice(&self) -> &[u8]
        ensures { result.now ≡ bytes_of self.now }
    {
        self.bytes.as_slice()
    }
}
