//! A sheet, on which the rows of some epochs are made ready.

ghost use Rattle.std.specs.Prelude.{◌≡◌, ◌≤◌, ◌==◌, ◌&&◌, false, [], Some, IfOk, IfSome, is_some};
ghost use Rattle.report_sheets.specs.Sheets.{HasItsRows};

use crate::source::RowSource;
use crate::writer::put_between;
use glass_edges::{Fault, NoMemory, Sink};
use std::alloc::Global;
use std::marker::Model;

/// The rows of some epochs as text, in memory that was taken when the sheet was made. As an output it takes
/// a piece for which it has room, and fails at another; of that tests speak, and no clause.
#[derive(Drop)]
pub(crate) struct Sheet {
    text: Vec<u8>,
    room: usize,
    faults: u64,
    // The epochs from which to which it was filled.
    from: u64,
    to: u64,
    // Whether all rows fitted when it was filled, and nothing was put since.
    whole: bool,
}

impl Model for Sheet {
    ghost use Rattle.std.specs.Prelude.{◌≤◌, vec_len, vec_capacity};
    ghost use Rattle.report_sheets.specs.Views.{SheetView};

    ghost Value = { SheetView };

    ghost view = { λ s. record { text = s.text.items; faults = s.faults; from = s.from; to = s.to; whole = s.whole } };

    ghost invariant = { λ s. (vec_len s.text ≤ s.room) × (s.room ≤ vec_capacity s.text) };
}

impl Sink for Sheet {
    ghost taken = { λ s. Some s.text };

    ghost faults = { λ s. s.faults };

    fn put(&mut self, piece: &[u8]) -> Result<usize, Fault> {
        if piece.len() > self.room - self.text.len() {
            self.faults = self.faults.saturating_add(1);
            return Err(Fault);
        }
        let _ = self.text.extend_from_slice(piece);
        self.whole = false;
        Ok(piece.len())
    }
}

impl Sheet {
    /// An empty sheet with room for so many bytes. All its memory is taken here.
    pub(crate) fn new(alloc: Global, room: usize) -> Result<Sheet, NoMemory>
        ensures { IfOk result (λ s. s ≡ record { text = []; faults = 0; from = 0; to = 0; whole = false }) }
    {
        Ok(Sheet {
            text: Vec::with_capacity(alloc, room)?,
            room,
            faults: 0,
            from: 0,
            to: 0,
            whole: false,
        })
    }

    /// Fills the sheet with the rows from one epoch to another in the place of what it had, and keeps whether
    /// all of them fitted.
    // Not part of the call that starts the threads, of which the stack of the first thread has one a thread.
    #[inline(never)]
    pub(crate) fn fill<S: RowSource>(&mut self, rows: &S, from: u64, to: u64)
        requires ready { S.ready rows.now }
        requires begin { S.begin rows.now ≤ from }
        requires window { from ≤ to }
        requires end { to ≤ S.end rows.now }
        ensures rows { HasItsRows (S.text rows.now) self.new }
        ensures epochs { (self.new.from ≡ from) × (self.new.to ≡ to) }
        ensures later { self.old.faults ≤ self.new.faults }
    {
        self.text.clear();
        let whole = put_between(self, rows, from, to).is_ok();
        self.from = from;
        self.to = to;
        self.whole = whole;
    }

    /// Forgets that all rows fitted, so that it gives no text before it is filled.
    pub(crate) fn forget(&mut self)
        ensures { self.new ≡ record { text = self.old.text; faults = self.old.faults; from = self.old.from; to = self.old.to; whole = false } }
    {
        self.whole = false;
    }

    /// The text, where it was filled with the rows from one epoch to another and all of them fitted.
    pub(crate) fn text(&self, from: u64, to: u64) -> Option<&[u8]>
        ensures text { IfSome result (λ text. text.now ≡ self.now.text) }
        ensures whole { is_some result ≡ (self.now.whole && self.now.from == from && self.now.to == to) }
    {
        if self.whole && self.from == from && self.to == to {
            return Some(self.text.as_slice());
        }
        None
    }
}
