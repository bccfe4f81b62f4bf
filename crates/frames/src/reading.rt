ghost use Rattle.std.specs.Prelude.{◌≡◌, [], ◌∷◌, Some, None, MatchResult};
ghost use Rattle.hexlines.specs.declared.fault.Layer.TheVariants.{Frame as AtFrame};
ghost use Rattle.refusals.specs.declared.refusal.Refusal.TheVariants.{BadFrame};
ghost use Rattle.rules.specs.Bytes.{NamesWay};
ghost use Rattle.frames.specs.Bytes.{in_eight};
ghost use Rattle.frames.specs.Frames.{Spells, NoFrame};
ghost use Rattle.frames.specs.Shapes.{frame_of};

use crate::frame::Frame;
use hexlines::fault::{Fault, Layer};
use refusals::refusal::Refusal;
use rules::way::Way;

// The way that a byte names, or this fault.
fn way_of(byte: u8, fault: Fault) -> Result<Way, Fault>
    ensures { MatchResult result (λ way. NamesWay byte (Some way)) (λ e. (e ≡ fault) × NamesWay byte None) }
{
    Way::try_from(byte).map_err(|_| fault)
}

// The number of which these are the bytes, the highest first. They are eight parameters and no array: of an array's items the proof is not
// told that each is a byte, and did not close.
fn number_of(a: u8, b: u8, c: u8, d: u8, e: u8, f: u8, g: u8, h: u8) -> u64
    ensures { in_eight result ≡ a ∷ b ∷ c ∷ d ∷ e ∷ f ∷ g ∷ h ∷ [] }
{
    u64::from_be_bytes([a, b, c, d, e, f, g, h])
}

// The frame that the bytes of a line spell, if they spell one; `line` is the line's number.
pub fn frame_of(bytes: &[u8], line: usize) -> Result<Frame<'_>, Fault>
    ensures { MatchResult result
        (λ f. Spells bytes.now (frame_of f))
        (λ e. (e ≡ record { line = line; layer = AtFrame; refusal = BadFrame }) × NoFrame bytes.now) }
{
    let fault = Fault {
        line,
        layer: Layer::Frame,
        refusal: Refusal::BadFrame,
    };
    match bytes {
        [1, high, low] => Ok(Frame::Header {
            count: u16::from_be_bytes([*high, *low]),
        }),
        [2, head, n, entries @ ..] if entries.len() == 2 * *n as usize => Ok(Frame::Rule {
            head: *head,
            entries,
        }),
        [3, way, a, b, c, d, e, f, g, h, ranks @ ..] => {
            let way = way_of(*way, fault)?;
            let set = number_of(*a, *b, *c, *d, *e, *f, *g, *h);
            if ranks.len() != set.count_ones() as usize {
                return Err(fault);
            }
            Ok(Frame::Page { way, set, ranks })
        }
        [4, rules, pages] => Ok(Frame::Trailer {
            rules: *rules,
            pages: *pages,
        }),
        _ => Err(fault),
    }
}
