//! The entries of a store in memory, in any order: of several with one name the first counts.

ghost use Rattle.std.specs.Prelude.{◌≡◌, true, None, Some, length, IfSome};
ghost use Rattle.glass_edges.specs.Entries.{held_of, IsFirst, IsMissing};
ghost use Rattle.glass_edges.specs.MemoryStore.{fits};

use crate::reserved_buffer::ReservedBuffer;

/// A name with the bytes that it holds and the buffer that is reserved for it, if any.
#[derive(Drop)]
pub(crate) struct Entry {
    pub(crate) name: String,
    pub(crate) held: Option<Vec<u8>>,
    pub(crate) room: Option<ReservedBuffer>,
}

/// The index of the first entry of this name.
pub(crate) fn first_of(entries: &[Entry], name: &str) -> Option<usize>
    ensures found { IfSome result (IsFirst entries.now name.now) }
    ensures missing { result ≡ None → IsMissing entries.now name.now (length entries.now) }
{
    'entries: for i in 0..entries.len() {
        if entries[i].name.as_str() == name {
            return Some(i);
        }
    }
    None
}

/// Sets the entry's bytes in its reserved buffer, which is used up.
pub(crate) fn fill_entry(entry: &mut Entry, bytes: &[u8])
    requires { fits entry.old.room (length bytes.now) ≡ true }
    ensures name { entry.new.name ≡ entry.old.name }
    ensures held { held_of entry.new ≡ Some bytes.now }
    ensures room { entry.new.room ≡ None }
{
    match entry.room.take() {
        Some(room) => entry.held = Some(room.filled(bytes)),
        None => {}
    }
}
