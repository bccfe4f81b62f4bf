ghost use Rattle.std.specs.Prelude.{◌≡◌, ◌+◌, ◌*◌, ◌^◌, ◌<◌, ◌≤◌, [], ◌∷◌, length, slice_set};
ghost use Rattle.rows.specs.Rows.{held};
ghost use Rattle.hexlines.specs.Hex as Hex;
ghost use Rattle.hexlines.specs.Hex.{hex};
ghost use Rattle.archive.specs.Writing.{over, Puts};

use hexlines::digits::digits_of;
use hexlines::line::Line;

// Memory and place stay two parameters below: a struct that held the `&mut` would put a clause more into each contract, on whose memory
// it is.

// Writes one character.
fn put(memory: &mut [u8], at: usize, c: u8)
    requires { at < length memory.old }
    ensures { memory.new ≡ slice_set memory.old at c }
{
    memory[at] = c;
}

// Writes the two digits of a byte.
fn put_byte(memory: &mut [u8], at: usize, b: u8)
    requires { at + 2 ≤ length memory.old }
    ensures { memory.new ≡ over at (hex (b ∷ [])) memory.old }
{
    let [high, low] = digits_of(b);
    put(memory, at, high);
    put(memory, at + 1, low);
}

// Writes the digits of some bytes.
fn put_bytes(memory: &mut [u8], at: usize, bytes: &[u8])
    requires { at + 2 * length bytes.now ≤ length memory.old }
    ensures { memory.new ≡ over at (hex bytes.now) memory.old }
{
    for (i, b) in bytes.iter().enumerate() {
        put_byte(memory, at + 2 * i, *b);
    }
}

// Writes a line where there is room for it, and answers the place after it.
pub(crate) fn put_line(memory: &mut [u8], at: usize, line: &Line) -> usize
    requires { at < 2 ^ 32 }
    ensures puts { Puts memory.old at (Hex.line (held line.now)) memory.new result }
    ensures near { result ≤ at + 149 }
{
    let bytes = line.as_slice();
    let end = at + 2 * bytes.len() + 1;
    if end <= memory.len() {
        put_bytes(memory, at, bytes);
        put(memory, end - 1, b'\n');
    }
    end
}
