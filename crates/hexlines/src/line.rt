ghost use Rattle.std.specs.Prelude.{◌≡◌, ℕ, ◌+◌, ◌*◌, ◌<◌, List, length, drop, None, MatchResult};
ghost use Rattle.rows.specs.Rows.{held};
ghost use Rattle.hexlines.specs.Hex.{Front, Pair, Begins, Feed};
ghost use Rattle.hexlines.specs.declared.fault.Fault.{Fault};
ghost use Rattle.hexlines.specs.declared.fault.Layer.TheVariants.{Text};
ghost use Rattle.refusals.specs.declared.refusal.Refusal.TheVariants.{BadLine};

use crate::digits::split_byte;
use crate::fault::{Fault, Layer};
use refusals::refusal::Refusal;
use rows::row::Row;

// The most bytes of a line.
pub const MAX_BYTES: usize = 74;

// The bytes of a line.
pub type Line = Row<u8, MAX_BYTES>;

// The bytes whose digits stand at the front of a text, up to what is no byte's digits, or to the most of a line.
fn front(text: &[u8]) -> Line
    ensures front { Front text.now (held result) }
    ensures stops { length (held result) < 74 → Pair (drop (2 * length (held result)) text.now) None }
{
    let mut line = Row::new(0);
    let mut rest = text;
    // a full line takes no more; and no chunks of two: what follows the digits is still to be read
    while let Some((b, more)) = split_byte(rest) {
        let Ok(()) = line.push(b) else {
            return line;
        };
        rest = more;
    }
    line
}

// Whether a line feed stands at a place.
fn ends_at(text: &[u8], at: usize) -> bool
    ensures { Feed text.now at result }
{
    at < text.len() && text[at] == b'\n'
}

// The line at the front of a text, if one stands there; `number` is that of the line.
pub fn take_line(text: &[u8], number: usize) -> Result<Line, Fault>
    ensures { MatchResult result
        (λ l. Begins text.now (held l) (drop (2 * length (held l) + 1) text.now))
        (λ e. (e ≡ record { line = number; layer = Text; refusal = BadLine }) × ((bytes rest : List ℕ) → Begins text.now bytes rest → ⊥)) }
{
    let line = front(text);
    let len = line.len();
    if len == 0 || !ends_at(text, 2 * len) {
        return Err(Fault {
            line: number,
            layer: Layer::Text,
            refusal: Refusal::BadLine,
        });
    }
    Ok(line)
}
