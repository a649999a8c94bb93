//! The lines of a refused table.

ghost use Rattle.std.specs.Prelude.{◌≡◌, ◌+◌, ◌≤◌, ◌++◌, [], codes, decimal, length};
ghost use Rattle.glass_main.specs.Lines.{record_front, field_front, table_line};
ghost use Rattle.glass_main.specs.Outside.{output};
ghost use Rattle.glass_main.specs.Statuses.{Says};

use crate::lines::{add_file, say, say_end, say_number, say_other_number};
use crate::role::Role;
use glass_edges::{Line, Sink};
use threshold_table::TableRefused;

/// Writes why the table that is read as this was refused.
#[tactic(auto, unfolding(crate::specs::Lines::table_line, crate::specs::Lines::memory_line))]
pub(crate) fn say_table<E: Sink>(err: &mut E, table: Role, refused: &TableRefused)
    ensures { Says (table_line table refused.now) (output E.Sink err.old) (output E.Sink err.new) }
{
    match *refused {
        TableRefused::Csv => say_end(err, table, b" is not CSV\n"),
        TableRefused::Fields { at, found, wanted } => say_fields(err, table, at, found, wanted),
        TableRefused::Number { at, field } => say_no_number(err, table, at, field),
        TableRefused::TooGreat { at, field, value } => say_too_great(err, table, at, field, value),
        TableRefused::Records { found, wanted } => {
            say_other_number(err, table, found, b" records, not ", wanted);
        }
        TableRefused::NoMemory => say(err, b"glass: no memory\n"),
    }
}

fn say_fields<E: Sink>(err: &mut E, table: Role, at: u64, found: u64, wanted: u64)
    ensures { Says (record_front table at ++ codes " has " ++ decimal found ++ codes " fields, not "
        ++ decimal wanted ++ codes "\n") (output E.Sink err.old) (output E.Sink err.new) }
{
    let mut line = Line::new();
    add_record(&mut line, table, at);
    line.add(b" has ");
    line.number(found);
    say_number(err, &mut line, b" fields, not ", wanted, b"\n");
}

fn say_no_number<E: Sink>(err: &mut E, table: Role, at: u64, field: u64)
    ensures { Says (field_front table at field ++ codes " is not a number\n")
        (output E.Sink err.old) (output E.Sink err.new) }
{
    let mut line = Line::new();
    add_field(&mut line, table, at, field);
    line.add(b" is not a number\n");
    say(err, line.as_slice());
}

fn say_too_great<E: Sink>(err: &mut E, table: Role, at: u64, field: u64, value: u64)
    ensures { Says (field_front table at field ++ codes " is too great: " ++ decimal value ++ codes "\n")
        (output E.Sink err.old) (output E.Sink err.new) }
{
    let mut line = Line::new();
    add_field(&mut line, table, at, field);
    say_number(err, &mut line, b" is too great: ", value, b"\n");
}

// Adds the front of a line on a record.
#[tactic(auto, unfolding(crate::specs::Lines::record_front))]
fn add_record(line: &mut Line, table: Role, at: u64)
    requires { line.old ≡ [] }
    ensures text { line.new ≡ record_front table at }
    ensures short { length line.new ≤ 60 }
{
    add_file(line, table);
    line.add(b", record ");
    line.number(at);
}

// Adds the front of a line on a field.
#[tactic(auto, unfolding(crate::specs::Lines::field_front))]
fn add_field(line: &mut Line, table: Role, at: u64, field: u64)
    requires { line.old ≡ [] }
    ensures text { line.new ≡ field_front table at field }
    ensures short { length line.new ≤ 100 }
{
    add_record(line, table, at);
    line.add(b", field ");
    line.number(field);
}
