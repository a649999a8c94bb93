//! The buffer in which a line of text is made.

ghost use Rattle.std.specs.Prelude.{◌≡◌, ℕ, ◌+◌, ◌<◌, ◌≤◌, ◌↔◌, IsTrue, List, [], ◌++◌, length, decimal, Ok, OnOk, OnErr};
ghost use Rattle.std.specs.Fmt.{signed_decimal};
ghost use Rattle.glass_edges.specs.Causes.{HasCause};
ghost use Rattle.glass_edges.specs.Contents.{TellsBytes, line_room};
ghost use Rattle.glass_edges.specs.Writes.{Writes, WritesFront};

use crate::{Fault, Sink, put_all};
use std::marker::Model;

/// The bytes that a line has room for: many rows of a report go out in one piece, and the longest
/// bounded line is far shorter.
pub const LINE_ROOM: usize = 4096;

/// A text of at most [`LINE_ROOM`] bytes. It takes no memory.
#[derive(Drop)]
pub struct Line {
    text: [u8; LINE_ROOM],
    len: usize,
}

impl Model for Line {
    ghost use Rattle.std.specs.Prelude.{ℕ, ◌≤◌, List, take};
    ghost use Rattle.glass_edges.specs.Contents.{line_room};

    ghost Value = { List ℕ };

    ghost view = { λ a. take a.len a.text };

    ghost invariant = { λ a. a.len ≤ line_room };
}

impl Line {
    /// The empty text.
    pub fn new() -> Line
        ensures { result ≡ [] }
    {
        Line {
            text: [0; LINE_ROOM],
            len: 0,
        }
    }

    /// Makes the text empty.
    pub fn clear(&mut self)
        ensures { self.new ≡ [] }
    {
        self.len = 0;
    }

    /// Adds these bytes at the end.
    pub fn add(&mut self, bytes: &[u8])
        requires { length self.old + length bytes.now ≤ line_room }
        ensures { self.new ≡ self.old ++ bytes.now }
    {
        let end = self.len + bytes.len();
        self.text[self.len..end].copy_from_slice(bytes);
        self.len = end;
    }

    /// Adds a number in decimal, of at most 20 digits.
    pub fn number(&mut self, n: u64)
        requires { length self.old + 20 ≤ line_room }
        ensures value { self.new ≡ self.old ++ decimal n }
        ensures short { length self.new ≤ length self.old + 20 }
    {
        let mut buffer = itoa::Buffer::new();
        self.add(buffer.format(n).as_bytes());
    }

    /// Adds a signed number in decimal, of at most 20 characters.
    pub fn signed(&mut self, n: i64)
        requires { length self.old + 20 ≤ line_room }
        ensures value { self.new ≡ self.old ++ signed_decimal n }
        ensures short { length self.new ≤ length self.old + 20 }
    {
        let mut buffer = itoa::Buffer::new();
        self.add(buffer.format(n).as_bytes());
    }

    /// The number of bytes.
    pub fn len(&self) -> usize
        ensures value { result ≡ length self.now }
        ensures within { length self.now ≤ line_room }
    {
        self.len
    }

    /// Whether there is no byte.
    pub fn is_empty(&self) -> bool
        ensures { IsTrue result ↔ (self.now ≡ []) }
    {
        self.len == 0
    }

    /// The text.
    pub fn as_slice(&self) -> &[u8]
        ensures { result.now ≡ self.now }
    {
        &self.text[..self.len]
    }

    /// Puts the text and makes it empty. At an error, which counts a fault, the output has taken a
    /// prefix of it, and the line keeps all of it.
    pub fn put<O: Sink>(&mut self, out: &mut O) -> Result<(), Fault>
        ensures written { Writes O.Sink out.old out.new self.old result }
        ensures emptied { OnOk result (self.new ≡ []) }
        ensures kept { OnErr result (self.new ≡ self.old) }
    {
        put_all(out, self.as_slice())?;
        self.clear();
        Ok(())
    }

    /// Makes room for `count` more bytes. Where they would not fit behind the text it puts the text or a
    /// front of it, and the rest stays; where they would it does nothing. At an error, which counts a
    /// fault, the output has taken a prefix of the text.
    pub fn make_room<O: Sink>(&mut self, out: &mut O, count: usize) -> Result<(), Fault>
        requires { count ≤ line_room }
        ensures room { OnOk result (length self.new + count ≤ line_room) }
        ensures written { WritesFront O.Sink out.old out.new self.old self.new result }
        ensures stays { length self.old + count ≤ line_room
            → (result ≡ Ok tt) × (self.new ≡ self.old) × (out.new ≡ out.old) }
    {
        if self.len() > LINE_ROOM - count {
            return self.put(out);
        }
        Ok(())
    }

    /// Adds bytes of any number; what does not fit goes out in pieces, and the rest stays. Where all of
    /// them fit nothing is put. At an error, which counts a fault, the output has taken a prefix of the
    /// text and these bytes.
    pub fn extend<O: Sink>(&mut self, out: &mut O, bytes: &[u8]) -> Result<(), Fault>
        ensures written { WritesFront O.Sink out.old out.new (self.old ++ bytes.now) self.new result }
        ensures stays { length self.old + length bytes.now ≤ line_room
            → (result ≡ Ok tt) × (self.new ≡ self.old ++ bytes.now) × (out.new ≡ out.old) }
    {
        let mut at = 0;
        'pieces: while at < bytes.len() {
            self.make_room(out, 1)?;
            let count = (bytes.len() - at).min(LINE_ROOM - self.len());
            self.add(&bytes[at..at + count]);
            at += count;
        }
        Ok(())
    }

    /// Adds `count` bytes, each as its index tells it; what does not fit goes out in pieces, and the
    /// rest stays. At an error as `extend`.
    pub fn extend_by<O: Sink, F: Fn(usize) -> u8>(
        &mut self,
        out: &mut O,
        count: usize,
        byte_at: F,
    ) -> Result<(), Fault>
        requires { (k : ℕ) → k < count → F.pre byte_at k }
        ensures written { (text : List ℕ) → TellsBytes (F.post byte_at) count text
            → WritesFront O.Sink out.old out.new (self.old ++ text) self.new result }
        ensures cause { HasCause (O.faults out.old) (O.faults out.new) result }
    {
        'bytes: for k in 0..count {
            self.make_room(out, 1)?;
            self.add(&[byte_at(k)]);
        }
        Ok(())
    }
}
