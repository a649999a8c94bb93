//! Digests in hexadecimal, and lines with two of them.

ghost use Rattle.std.specs.Prelude.{◌≡◌, ◌+◌, ◌≤◌, ◌++◌, codes, length};
ghost use Rattle.hex.specs.Hex.{encode_lower};
ghost use Rattle.glass_main.specs.Lines.{file_front};
ghost use Rattle.glass_main.specs.Outside.{output};
ghost use Rattle.glass_main.specs.Statuses.{Says};

use crate::lines::{add_file, say};
use crate::role::Role;
use glass_edges::{Line, Sink};

/// Writes the line of a file whose digest isn't that of its bytes.
pub(crate) fn say_damage<E: Sink>(err: &mut E, role: Role, stored: &[u8; 32], computed: &[u8; 32])
    ensures { Says (file_front role ++ codes " is damaged: " ++ encode_lower stored.now
        ++ codes " stored, " ++ encode_lower computed.now ++ codes " computed\n")
        (output E.Sink err.old) (output E.Sink err.new) }
{
    say_digests(
        err,
        role,
        b" is damaged: ",
        stored,
        computed,
        b" computed\n",
    );
}

/// Writes a line on a file with two digests in it.
pub(crate) fn say_digests<E: Sink>(
    err: &mut E,
    role: Role,
    before: &[u8],
    stored: &[u8; 32],
    other: &[u8; 32],
    after: &[u8],
)
    requires { length before.now + length after.now ≤ 80 }
    ensures { Says (file_front role ++ before.now ++ encode_lower stored.now ++ codes " stored, "
        ++ encode_lower other.now ++ after.now) (output E.Sink err.old) (output E.Sink err.new) }
{
    let mut line = Line::new();
    add_file(&mut line, role);
    line.add(before);
    line.add(digits(stored).as_slice());
    line.add(b" stored, ");
    line.add(digits(other).as_slice());
    line.add(after);
    say(err, line.as_slice());
}

/// A digest in hexadecimal.
pub(crate) fn digits(digest: &[u8; 32]) -> [u8; 64]
    ensures { result ≡ encode_lower digest.now }
{
    let mut digits = [0u8; 64];
    let _ = hex::encode_to_slice(digest.as_slice(), &mut digits);
    digits
}
