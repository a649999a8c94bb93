//! The store of named files in memory.

ghost use Rattle.std.specs.Prelude.{◌≡◌, ◌≤◌, ℕ, true, List, length, Some, is_ok, option_map, OnOk, OnErr};
ghost use Rattle.std.specs.FinMap as map;
ghost use Rattle.std.specs.Borrow.{Bor};
ghost use Rattle.glass_edges.specs.Causes.{HasCause, Rose};
ghost use Rattle.glass_edges.specs.Contents.{length_in};
ghost use Rattle.glass_edges.specs.MemoryStore.{fails_now, accepts, fits, IsReading, IsFetched, after_fetch, after_fill, after_place, with_file, with_room};

use crate::entries::{Entry, fill_entry, first_of};
use crate::reserved_buffer::ReservedBuffer;
use crate::{Fault, Fetched, NoMemory, Shelf};
use std::alloc::Global;
use std::marker::Model;

/// A store in memory, for tests: it fails at the calls whose numbers are in `fails`, where fetches
/// and places are numbered together from 0. A place takes no memory: it wants a buffer that was
/// reserved for its name, and uses it up. Its files are always observable.
#[derive(Drop)]
pub struct MemoryShelf {
    alloc: Global,
    entries: Vec<Entry>,
    fails: Vec<u64>,
    calls: u64,
    faults: u64,
}

impl Model for MemoryShelf {
    ghost use Rattle.glass_edges.specs.MemoryStore.{MemoryStore, store_code};

    ghost Value = { MemoryStore };

    ghost coded = { store_code };

    ghost use Rattle.glass_edges.specs.StoreView.{store_of};

    ghost view = { store_of };
}

impl MemoryShelf {
    /// A store that holds nothing and has no reserved buffer; takes no memory.
    pub fn new(alloc: Global, fails: Vec<u64>) -> MemoryShelf
        ensures { result ≡ record { files = map.empty; rooms = map.empty; failing = fails.items; calls = 0; faults = 0 } }
    {
        MemoryShelf {
            alloc,
            entries: Vec::new(alloc),
            fails,
            calls: 0,
            faults: 0,
        }
    }

    /// Sets the file of this name; its reserved buffer stays. A refusal changes nothing.
    pub fn add(&mut self, name: &str, bytes: &[u8]) -> Result<(), NoMemory>
        ensures added { OnOk result (self.new ≡ with_file self.old name.now bytes.now) }
        ensures same { OnErr result (self.new ≡ self.old) }
    {
        let held = bytes.to_vec(self.alloc)?;
        match first_of(&self.entries, name) {
            Some(i) => {
                self.entries[i].held = Some(held);
                Ok(())
            }
            None => {
                let name = String::from_str(self.alloc, name)?;
                self.entries.push(Entry {
                    name,
                    held: Some(held),
                    room: None,
                })?;
                Ok(())
            }
        }
    }

    /// Reserves a buffer for one place of at most `len` bytes under this name, instead of the one
    /// that it may have; its file stays. A refusal changes nothing.
    pub fn room(&mut self, name: &str, len: usize) -> Result<(), NoMemory>
        ensures made { OnOk result (self.new ≡ with_room self.old name.now len) }
        ensures same { OnErr result (self.new ≡ self.old) }
    {
        let room = ReservedBuffer::of(self.alloc, len)?;
        match first_of(&self.entries, name) {
            Some(i) => {
                self.entries[i].room = Some(room);
                Ok(())
            }
            None => {
                let name = String::from_str(self.alloc, name)?;
                self.entries.push(Entry {
                    name,
                    held: None,
                    room: Some(room),
                })?;
                Ok(())
            }
        }
    }

    /// Counts a call, and a fault where it is one of those that fail, which it answers.
    fn fails_next(&mut self) -> bool
        ensures told { result ≡ fails_now self.old }
        ensures counted { self.new ≡ after_fetch self.old }
        ensures rose { result ≡ true → Rose self.old.faults self.new.faults }
        ensures later { self.old.faults ≤ self.new.faults }
    {
        let number = self.calls;
        self.calls = self.calls.saturating_add(1);
        if self.fails.contains(&number) {
            self.faults = self.faults.saturating_add(1);
            return true;
        }
        false
    }

    /// The number of bytes of the buffer that is reserved for this name.
    fn reserved(&self, name: &str) -> Option<usize>
        ensures { result ≡ map.get self.now.rooms name.now }
    {
        match first_of(&self.entries, name) {
            None => None,
            Some(i) => match &self.entries[i].room {
                Some(room) => Some(room.limit()),
                None => None,
            },
        }
    }

    /// Whether so many bytes fit in the buffer that is reserved for this name.
    fn has_room(&self, name: &str, len: usize) -> bool
        ensures { result ≡ fits (map.get self.now.rooms name.now) len }
    {
        match self.reserved(name) {
            Some(room) => len <= room,
            None => false,
        }
    }

    /// Sets the file in its reserved buffer.
    fn fill(&mut self, name: &str, bytes: &[u8])
        requires { fits (map.get self.old.rooms name.now) (length bytes.now) ≡ true }
        ensures { self.new ≡ after_fill self.old name.now bytes.now }
    {
        match first_of(&self.entries, name) {
            Some(i) => fill_entry(&mut self.entries[i], bytes),
            None => {}
        }
    }

    /// Reads a file, and counts no call.
    pub(crate) fn read(&self, alloc: Global, name: &str, limit: u64) -> Fetched
        ensures { IsReading self.now.files name.now limit result }
    {
        match self.bytes_of(name) {
            None => Fetched::Absent,
            Some(bytes) => {
                if bytes.len() as u64 > limit {
                    return Fetched::TooLong(bytes.len() as u64);
                }
                match bytes.to_vec(alloc) {
                    Ok(bytes) => Fetched::Held(bytes),
                    Err(_) => Fetched::NoMemory,
                }
            }
        }
    }

    /// The bytes of a file.
    fn bytes_of(&self, name: &str) -> Option<&[u8]>
        ensures { option_map (λ (b : Bor (List ℕ)). b.now) result ≡ map.get self.now.files name.now }
    {
        match first_of(&self.entries, name) {
            None => None,
            Some(i) => match &self.entries[i].held {
                Some(bytes) => Some(bytes.as_slice()),
                None => None,
            },
        }
    }
}

impl Shelf for MemoryShelf {
    ghost holds = { λ s. Some s.files };

    ghost faults = { λ s. s.faults };

    ghost lengths = { λ s name _. length_in s.files name };

    fn fetch(&mut self, alloc: Global, name: &str, limit: u64) -> Fetched
        ensures exactly { IsFetched self.old name.now limit result }
        ensures later { self.old.faults ≤ self.new.faults }
        ensures moved { self.new ≡ after_fetch self.old }
    {
        if self.fails_next() {
            return Fetched::Failed;
        }
        self.read(alloc, name, limit)
    }

    fn place(&mut self, name: &str, bytes: &[u8]) -> Result<(), Fault>
        ensures exactly { is_ok result ≡ accepts self.old name.now (length bytes.now) }
        ensures cause { HasCause self.old.faults self.new.faults result }
        ensures moved { self.new ≡ after_place self.old name.now bytes.now }
    {
        if self.fails_next() {
            return Err(Fault);
        }
        if !self.has_room(name, bytes.len()) {
            self.faults = self.faults.saturating_add(1);
            return Err(Fault);
        }
        self.fill(name, bytes);
        Ok(())
    }
}
