// One line of a sheet as text (document 01, "Call sheet"): key, number, on a seat's line a comma and a User ID, then LF.
#![tactic(auto)]

mod key;

ghost use Rattle.std.specs.Prelude.{◌≡◌, [], ◌∷◌, ◌+◌, ◌≤◌, min, length, drop};
ghost use Rattle.octets.specs.Choice.{begins, front};
ghost use Rattle.octets.specs.Text.{digit, value_of, plain};
ghost use Rattle.sheet.specs.Table.{row_at};
ghost use Rattle.sheet.specs.Inner.{cap};
ghost use Rattle.sheet_line.specs.Inner.{TailIs};
ghost use Rattle.sheet_line.specs.Promises.{line_at≡};

use key::key_of;
use seats::user::visible_end;
use sheet::numbers::NUMBER_LINES;

// Numbers are told apart as far as this; every number that a line may have is below it.
const CAP: u64 = 4294967296;

const LF: u8 = b'\n';

// A line that was found: its number, as far as CAP, the place of its User ID and that of its LF.
#[derive(Clone, Copy)]
pub struct Line {
    pub number: u64,
    pub name: usize,
    pub end: usize,
}

// Digits that were found: the number that they make, as far as CAP, and where they end.
#[derive(Clone, Copy)]
struct Decimal {
    number: u64,
    end: usize,
}

// What was found behind a number: the place of the User ID and that of the LF.
#[derive(Clone, Copy)]
struct Rest {
    name: usize,
    end: usize,
}

// The number that the digits at a place make, as far as CAP, and where they end.
fn digits(text: &[u8], at: usize) -> Decimal
    requires { at ≤ length text.now }
    ensures { (result.end ≤ length text.now)
        × (result.end ≡ at + length (front digit (drop at text.now)))
        × (result.number ≡ min (value_of (front digit (drop at text.now))) cap) }
{
    let mut number: u64 = 0;
    for i in at..text.len() {
        let c = text[i];
        if !c.is_ascii_digit() {
            return Decimal { number, end: i };
        }
        number = (number * 10 + u64::from(c - b'0')).min(CAP);
    }
    Decimal {
        number,
        end: text.len(),
    }
}

// Whether digits have no leading zero, and are not none.
fn is_plain(digits: &[u8]) -> bool
    ensures { result ≡ plain digits.now }
{
    match digits {
        [] => false,
        [_] => true,
        [first, ..] => *first != b'0',
    }
}

// Whether an octet stands at a place.
fn is_at(text: &[u8], at: usize, c: u8) -> bool
    ensures { result ≡ begins (c ∷ []) (drop at text.now) }
{
    text.get(at) == Some(&c)
}

// What follows a number: LF, or on a seat's line the comma, a User ID and LF.
fn tail(text: &[u8], at: usize, k: usize) -> Option<Rest>
    requires { at ≤ length text.now }
    ensures { TailIs text.now at (row_at k) result }
{
    if k < NUMBER_LINES {
        return is_at(text, at, LF).then_some(Rest { name: at, end: at });
    }
    if !is_at(text, at, b',') {
        return None;
    }
    let name = at + 1;
    let end = visible_end(text, name);
    is_at(text, end, LF).then_some(Rest { name, end })
}

// The line at a place, as line k. (Inlined, as is `judged` of sheet_text: the answer of each line does not go through memory.)
#[inline(always)]
pub fn line_at(text: &[u8], at: usize, k: usize) -> Option<Line>
    ensures { line_at≡ text.now at k result }
{
    let key = key_of(k);
    if !text.get(at..)?.starts_with(key) {
        return None;
    }
    let start = at + key.len();
    let found = digits(text, start);
    if !is_plain(&text[start..found.end]) {
        return None;
    }
    let rest = tail(text, found.end, k)?;
    Some(Line {
        number: found.number,
        name: rest.name,
        end: rest.end,
    })
}
