//! The end of a line that may be longer than the buffer.

ghost use Rattle.std.specs.Prelude.{◌++◌, codes};
ghost use Rattle.glass_edges.specs.Writes.{Writes};

use glass_edges::{Fault, Line, Sink};

/// Puts what is left of a line, and its line feed.
pub(crate) fn end_line<O: Sink>(out: &mut O, line: &mut Line) -> Result<(), Fault>
    ensures { Writes O.Sink out.old out.new (line.old ++ codes "\n") result }
{
    line.make_room(out, 1)?;
    line.add(b"\n");
    line.put(out)
}
