// The lines in a piece of the input (document 01, "Bench program"): a line of text for each that ends in it, and what is held of one that does
// not.
#![tactic(auto)]

pub mod held;

ghost use Rattle.std.specs.Prelude.{◌≡◌, [], ◌+◌, ◌*◌, ◌≤◌, length};
ghost use Rattle.shown.specs.Promises.{Put};
ghost use Rattle.lines.specs.Pieces.{left_from, lines_text};
ghost use Rattle.lines.specs.Promises.{has_room≡, put_lines≡, put_last≡};

use held::Held;
use memchr::memchr;
use packet::Numbers;
use shown::{LF, TIMES, line};

// One digit more than a packet has decides a line.
const LINE: usize = 2 * hex_line::MOST + 1;

// What is kept of a line that has not ended, and the place past what was printed.
#[derive(Clone, Copy)]
pub struct Kept {
    pub held: Held,
    pub end: usize,
}

// Whether so many octets of a buffer have behind a place the room that so many of the input ask for.
pub fn has_room(out: usize, at: usize, octets: usize) -> bool
    ensures { has_room≡ out at octets result }
{
    octets <= out.saturating_sub(at) / TIMES
}

// The place past what was printed, and what stands behind the last LF.
#[derive(Clone, Copy)]
struct Ended<'a> {
    end: usize,
    left: &'a [u8],
}

// Puts the lines for those that end in a piece, one behind the other.
fn put_ended<'a>(out: &mut [u8], at: usize, numbers: Numbers, piece: &'a [u8]) -> Ended<'a>
    requires { at + 10 * length piece.now ≤ length out.old }
    ensures { Put (lines_text numbers [] piece.now) out.old at result.end out.new × (result.left.now ≡ left_from [] piece.now) }
{
    let mut end = at;
    let mut left = piece;
    // A line's end is looked for behind the last one.
    while let Some(lf) = memchr(LF, left) {
        end = line::put(out, end, numbers, &left[..lf]);
        left = &left[lf + 1..];
    }
    Ended { end, left }
}

// Puts the lines for those that end in a piece at a place, the first of them begun with what is held, and keeps what stands behind the last LF.
// Where not ten octets for each that is held or comes stand behind the place, nothing is put, and what is held stays. (A buffer and a place, as `put_lines≡` speaks of
// them.)
pub fn put_lines(out: &mut [u8], at: usize, numbers: Numbers, held: Held, piece: &[u8]) -> Kept
    ensures { put_lines≡ numbers held piece.now out.old at result out.new }
{
    if !has_room(out.len(), at, held.as_slice().len() + piece.len()) {
        return Kept { held, end: at };
    }
    let Some(lf) = memchr(LF, piece) else {
        return Kept {
            held: held::with(held, piece, LINE),
            end: at,
        };
    };
    let first = held::with(held, &piece[..lf], LINE);
    let end = line::put(out, at, numbers, first.as_slice());
    let ended = put_ended(out, end, numbers, &piece[lf + 1..]);
    Kept {
        held: held::with(held::none(), ended.left, LINE),
        end: ended.end,
    }
}

// Puts the last line at a place, where one is held, and gives the place past it. Where not ten octets for each of the line and its LF stand
// behind the place, nothing is put.
#[tactic(auto, using(crate::proofs::Laws::Held::no_last_put, crate::proofs::Laws::Held::no_last_length))]
pub fn put_last(out: &mut [u8], at: usize, numbers: Numbers, held: Held) -> usize
    ensures { put_last≡ numbers held out.old at result out.new }
{
    let octets = held.as_slice();
    if octets.is_empty() {
        return at;
    }
    line::put(out, at, numbers, octets)
}
