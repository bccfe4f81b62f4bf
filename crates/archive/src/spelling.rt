ghost use Rattle.std.specs.Prelude.{◌≡◌, ◌+◌, ◌*◌, ◌<◌, ◌≤◌, [], ◌∷◌, ◌++◌, map, length};
ghost use Rattle.sets.specs.Walks.{decisions};
ghost use Rattle.answer_sets.specs.Rules.{rank};
ghost use Rattle.rows.specs.Rows.{held};
ghost use Rattle.rules.specs.Bytes.{way_byte};
ghost use Rattle.rules.specs.Shapes.{way_of, entry_of, rule_of};
ghost use Rattle.book.specs.View.{page_of};
ghost use Rattle.answer_sets.specs.Naming.{entry_number};
ghost use Rattle.frames.specs.Bytes.{in_two, in_eight};
ghost use Rattle.frames.specs.Frames.{spelled, a_header, a_trailer};
ghost use Rattle.archive.specs.Text.{body_bytes, rule_frame, page_frame};

use book::page::Page;
use hexlines::line::Line;
use judge::ranks::Ranks;
use naming::head::head_number;
use rows::row::Row;
use rules::entry::Entry;
use rules::rule::Rule;
use rules::way::Way;
use sets::decisions::Decisions;
use sets::set::Set;

// A number in two bytes.
fn two_bytes(n: u16) -> [u8; 2]
    ensures { result ≡ in_two n }
{
    u16::to_be_bytes(n)
}

// The number of an entry in two bytes.
fn entry_bytes(e: Entry) -> [u8; 2]
    ensures { result ≡ in_two (entry_number (entry_of e)) }
{
    two_bytes(u16::from(e))
}

// The first two bytes of a page's frame.
fn page_front(way: Way) -> [u8; 2]
    ensures { result ≡ 3 ∷ way_byte (way_of way) ∷ [] }
{
    [3, u8::from(way)]
}

// A number in eight bytes.
fn eight_bytes(n: u64) -> [u8; 8]
    ensures { result ≡ in_eight n }
{
    u64::to_be_bytes(n)
}

// Puts one byte more into a line.
fn add(line: &mut Line, b: u8)
    requires { length (held line.old) < 74 }
    ensures { held line.new ≡ held line.old ++ b ∷ [] }
{
    let _ = line.push(b);
}

// Puts some bytes more into a line.
fn add_all(line: &mut Line, bytes: &[u8])
    requires { length (held line.old) + length bytes.now ≤ 74 }
    ensures { held line.new ≡ held line.old ++ bytes.now }
{
    for b in bytes {
        add(line, *b);
    }
}

// The line of these bytes.
fn line_of(bytes: &[u8]) -> Line
    requires { length bytes.now ≤ 74 }
    ensures { held result ≡ bytes.now }
{
    let mut line = Row::new(0);
    add_all(&mut line, bytes);
    line
}

// Puts the entries of a body into a line.
fn add_body(line: &mut Line, body: &[Entry])
    requires { length (held line.old) + 2 * length body.now ≤ 74 }
    ensures { held line.new ≡ held line.old ++ body_bytes (map entry_of body.now) }
{
    for e in body {
        add_all(line, &entry_bytes(*e));
    }
}

// Puts the ranks of a set's decisions into a line, the lowest decision first.
fn add_ranks(line: &mut Line, set: Set, ranks: &Ranks)
    requires { length (held line.old) ≤ 10 }
    ensures { held line.new ≡ held line.old ++ map (rank ranks.now.bytes) (decisions set) }
{
    for d in Decisions::of(set) {
        add(line, ranks.of(d));
    }
}

// The bytes of each frame.
pub(crate) fn header_bytes(count: u16) -> Line
    ensures { held result ≡ spelled (a_header count) }
{
    let [high, low] = two_bytes(count);
    line_of(&[1, high, low])
}

pub(crate) fn trailer_bytes(rules: u8, pages: u8) -> Line
    ensures { held result ≡ spelled (a_trailer rules pages) }
{
    line_of(&[4, rules, pages])
}

pub(crate) fn rule_bytes(rule: &Rule) -> Line
    ensures { held result ≡ spelled (rule_frame (rule_of rule.now)) }
{
    let body = rule.body();
    let mut line = line_of(&[2, head_number(rule.head()), body.len() as u8]);
    add_body(&mut line, body);
    line
}

pub(crate) fn page_bytes(page: &Page) -> Line
    ensures { held result ≡ spelled (page_frame (page_of [] page.now)) }
{
    let mut line = line_of(&page_front(page.way));
    add_all(&mut line, &eight_bytes(page.set));
    add_ranks(&mut line, page.set, &page.ranks);
    line
}
