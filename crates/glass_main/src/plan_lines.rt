//! The lines of a refused run file.

ghost use Rattle.std.specs.Prelude.{◌≡◌, ◌+◌, ◌≤◌, ◌++◌, codes, decimal, length, map};
ghost use Rattle.std.specs.Fmt.{signed_decimal};
ghost use Rattle.glass_edges.specs.Writes.{Writes, WritesFront};
ghost use Rattle.run_plan.specs.RunFile.{name_of};
ghost use Rattle.glass_main.specs.Lines.{plan_line, printable};
ghost use Rattle.glass_main.specs.Outside.{output};
ghost use Rattle.glass_main.specs.Statuses.{Says};

use crate::lines::{say, say_number};
use crate::long_line::end_line;
use glass_edges::{Fault, Line, Sink};
use run_plan::{Key, PlanRefused};

/// Writes why a run file was refused, or the amount of what it orders.
#[tactic(auto, unfolding(crate::specs::Lines::plan_line, crate::specs::Lines::memory_line))]
pub(crate) fn say_plan<E: Sink>(err: &mut E, refused: &PlanRefused)
    ensures { Says (plan_line refused.now) (output E.Sink err.old) (output E.Sink err.new) }
{
    match refused {
        PlanRefused::Toml => say(err, b"glass: the run file is not TOML\n"),
        PlanRefused::Missing { key } => say_key(err, *key, b" is missing\n"),
        PlanRefused::Kind { key } => say_key(err, *key, b" has the wrong kind\n"),
        PlanRefused::Range { key, value } => say_range(err, *key, *value),
        PlanRefused::Word { key } => say_key(err, *key, b" has an unknown word\n"),
        PlanRefused::Unknown { key } => say_unknown(err, key.as_str()),
        PlanRefused::Rows { count } => say_count(err, b"glass: too many rows: ", *count),
        PlanRefused::Spins { bits } => say_count(err, b"glass: too many spin bits: ", *bits),
        PlanRefused::NoMemory => say(err, b"glass: no memory\n"),
        PlanRefused::Banks { samples } => say_count(
            err,
            b"glass: this command needs at most 64 samples, not ",
            *samples as u64,
        ),
    }
}

// A line that begins with a key.
fn say_key<E: Sink>(err: &mut E, key: Key, after: &[u8])
    requires { length after.now ≤ 100 }
    ensures { Says (codes "glass: key " ++ name_of key ++ after.now)
        (output E.Sink err.old) (output E.Sink err.new) }
{
    let mut line = Line::new();
    line.add(b"glass: key ");
    line.add(name(key));
    line.add(after);
    say(err, line.as_slice());
}

// The line of an integer that isn't lawful.
fn say_range<E: Sink>(err: &mut E, key: Key, value: i64)
    ensures { Says (codes "glass: key " ++ name_of key ++ codes " is out of range: "
        ++ signed_decimal value ++ codes "\n") (output E.Sink err.old) (output E.Sink err.new) }
{
    let mut line = Line::new();
    line.add(b"glass: key ");
    line.add(name(key));
    line.add(b" is out of range: ");
    line.signed(value);
    line.add(b"\n");
    say(err, line.as_slice());
}

// A line that ends with a number.
fn say_count<E: Sink>(err: &mut E, before: &[u8], count: u64)
    requires { length before.now ≤ 100 }
    ensures { Says (before.now ++ decimal count ++ codes "\n")
        (output E.Sink err.old) (output E.Sink err.new) }
{
    say_number(err, &mut Line::new(), before, count, b"\n");
}

// The key as a run file writes it.
fn name(key: Key) -> &'static [u8]
    ensures name { result.now ≡ name_of key }
    ensures short { length result.now ≤ 10 }
{
    key.name().as_bytes()
}

// The line of a key that no run file has. The key may be as long as the file.
#[tactic(auto, unfolding(crate::specs::Statuses::Says))]
fn say_unknown<E: Sink>(err: &mut E, key: &str)
    ensures { Says (codes "glass: unknown key " ++ map printable key.now ++ codes "\n")
        (output E.Sink err.old) (output E.Sink err.new) }
{
    let mut line = Line::new();
    line.add(b"glass: unknown key ");
    match put_key(err, &mut line, key.as_bytes()) {
        Ok(()) => {}
        Err(_) => {}
    }
}

// Puts what the buffer has, the key behind it, and a line feed.
fn put_key<E: Sink>(err: &mut E, line: &mut Line, key: &[u8]) -> Result<(), Fault>
    ensures { Writes E.Sink err.old err.new
        (line.old ++ map printable key.now ++ codes "\n") result }
{
    put_printable(err, line, key)?;
    end_line(err, line)
}

// Adds the bytes as they are printed; what does not fit goes out in pieces.
fn put_printable<E: Sink>(err: &mut E, line: &mut Line, bytes: &[u8]) -> Result<(), Fault>
    ensures { WritesFront E.Sink err.old err.new
        (line.old ++ map printable bytes.now) line.new result }
{
    'bytes: for b in bytes {
        line.make_room(err, 1)?;
        line.add(&[printable(*b)]);
    }
    Ok(())
}

// A byte as it is printed.
fn printable(b: u8) -> u8
    ensures { result ≡ printable b }
{
    if 32 <= b && b <= 126 { b } else { b'?' }
}
