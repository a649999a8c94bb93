//! What a save of a file asks of the system: a few calls, each of which says what it does.

ghost use Rattle.std.specs.Prelude.{◌≡◌, ℕ, ◌<◌, ◌≤◌, List, length, take, Option, [], ◌∷◌, IfOk, OnOk, OnErr, IfSome};
ghost use Rattle.glass_edges.specs.FolderSteps.{Past, Did, Does, Looks, FailedWrite, Tells, MayBeWritten, present, nothing};
ghost use Rattle.glass_edges.specs.FolderSteps.Step.{empties, makes, writes, flushes, renames, removes};

use crate::Fault;

/// What stands under a name.
#[derive(Clone, Copy, Debug, PartialEq, Eq)]
pub enum Standing {
    /// Nothing.
    Nothing,
    /// A regular file.
    Regular,
    /// Another thing, as a device, a pipe, a folder or a link.
    Other,
}

/// The files of a system by their names. A call does one step, or answers an error; then the step may
/// have been done all the same.
pub trait Folders {
    /// A file that is open to be written. It is closed where it is dropped.
    type File: Drop;

    /// The names at first and all steps since, where they are observable.
    ghost past: { Self → Option Past };

    /// The name under which a file was opened, where the steps are observable.
    ghost name_of: { Self.File → List ℕ };

    /// What stands under a name; a link is not followed.
    fn standing(&mut self, name: &str) -> Result<Standing, Fault>
        ensures told { IfOk result (λ standing. IfSome (past self.old) (λ past. Tells standing (present past name.now))) }
        ensures looks { Looks name.now (past self.old) (past self.new) result };

    /// Asks whether what stands under a name may be written.
    fn ask_to_write(&mut self, name: &str) -> Result<(), Fault>
        ensures granted { OnOk result (IfSome (past self.old) (λ past. MayBeWritten (present past name.now))) }
        ensures looks { Looks name.now (past self.old) (past self.new) result };

    /// Opens what stands under a name to be written anew.
    fn open(&mut self, name: &str) -> Result<Self::File, Fault>
        ensures does { Does (empties name.now) (past self.old) (past self.new) result }
        ensures named { IfOk result (λ file. IfSome (past self.old) (λ _. name_of file ≡ name.now)) };

    /// Makes a file under a name that has nothing, and opens it.
    fn create_new(&mut self, name: &str) -> Result<Self::File, Fault>
        ensures does { Does (makes name.now) (past self.old) (past self.new) result }
        ensures fresh { OnOk result (IfSome (past self.old) (λ past. present past name.now ≡ nothing)) }
        ensures named { IfOk result (λ file. IfSome (past self.old) (λ _. name_of file ≡ name.now)) };

    /// Writes the first bytes of the piece, at least one of a piece that isn't empty, and answers how many.
    fn write(&mut self, file: &mut Self::File, piece: &[u8]) -> Result<usize, Fault>
        ensures within { IfOk result (λ n. n ≤ length piece.now) }
        ensures some { IfOk result (λ n. 0 < length piece.now → 0 < n) }
        ensures written { IfOk result (λ n. Did (writes (name_of file.old) (take n piece.now) ∷ []) (past self.old) (past self.new)) }
        ensures failed { OnErr result (FailedWrite (name_of file.old) piece.now (past self.old) (past self.new)) }
        ensures named { name_of file.new ≡ name_of file.old };

    /// Brings all bytes of a file to the disk, and closes it.
    fn flush(&mut self, file: Self::File) -> Result<(), Fault>
        ensures { Does (flushes (name_of file)) (past self.old) (past self.new) result };

    /// Gives what has one name another one, in one step, also where a file has that.
    fn rename(&mut self, from: &str, to: &str) -> Result<(), Fault>
        ensures { Does (renames from.now to.now) (past self.old) (past self.new) result };

    /// Removes a file.
    fn remove(&mut self, name: &str) -> Result<(), Fault>
        ensures { Does (removes name.now) (past self.old) (past self.new) result };
}
