// What `mcvlook` prints (document 01, "Bench program"): a call sheet and then packets in hex, one a line, come in pieces; out goes a line of
// text for each packet. What is kept between two pieces is a value, and has the same size whatever came.
#![tactic(auto)]

ghost use Rattle.std.specs.Prelude.{◌≡◌, ◌⊎◌, [], ◌++◌, ◌+◌, ◌*◌, ◌≤◌, length};
ghost use Rattle.shown.specs.Promises.{Put};
ghost use Rattle.lines.specs.Pieces.{most_held, held_in};
ghost use Rattle.look.specs.Steps.{in_sheet, state_of, fed, step_of, last_text, decided, room_asked};
ghost use Rattle.look.specs.Inner.{WentTo, last_room};
ghost use Rattle.look.specs.Promises.{start≡, step≡, end≡, is_refused≡};

use lines::held;
use lines::held::{Held, MOST};
use packet::Numbers;
use sheet::Refusal;
use shown::{TIMES, line};

// What is kept between two pieces, and what the next piece goes on with: the sheet's text so far; the sheet's numbers and the line so far; or
// nothing more, the sheet being refused.
#[derive(Clone, Copy)]
pub enum Look {
    Sheet(Held),
    Lines { numbers: Numbers, held: Held },
    Refused,
}

// What is kept then, and how many octets were printed.
#[derive(Clone, Copy)]
pub struct Stepped {
    pub look: Look,
    pub written: usize,
}

// As many octets as may be held, and an LF.
const BESIDE: usize = MOST + 1;

// The room that the end of the input asks for, and a piece beside ten octets for each of its own.
pub const ROOM: usize = TIMES * BESIDE;

// What is kept before the first piece.
pub fn start() -> Look
    ensures { start≡ result }
{
    Look::Sheet(held::none())
}

// Puts the lines that end in a piece, behind a sheet with these numbers.
fn in_lines(out: &mut [u8], at: usize, numbers: Numbers, held: Held, piece: &[u8]) -> Stepped
    requires { at + 10 * (length (held_in held) + length piece.now) ≤ length out.old }
    ensures { WentTo (fed numbers (held_in held) piece.now) out.old at result out.new }
{
    let kept = lines::put_lines(out, at, numbers, held, piece);
    Stepped {
        look: Look::Lines {
            numbers,
            held: kept.held,
        },
        written: kept.end,
    }
}

// Reads the sheet from the text that is held, and puts its refusal, or the lines that end behind it and in the rest of a piece.
fn decide(out: &mut [u8], text: &[u8], rest: &[u8]) -> Stepped
    requires { (length text.now ≤ most_held) × ((length text.now ≡ most_held) ⊎ (rest.now ≡ [])) × (room_asked (length rest.now) ≤ length out.old) }
    ensures { WentTo (decided (text.now ++ rest.now)) out.old 0 result out.new }
{
    match sheet_text::read(text) {
        Ok(read) => {
            let numbers = packet::numbers_of(read.sheet);
            let kept = lines::put_lines(out, 0, numbers, held::none(), &text[read.used..]);
            in_lines(out, kept.end, numbers, kept.held, rest)
        }
        Err(refusal) => Stepped {
            look: Look::Refused,
            written: line::put_sheet(out, 0, refusal.line()),
        },
    }
}

// Holds a piece of the sheet, and decides the sheet once enough is held.
fn in_sheet(out: &mut [u8], held: Held, piece: &[u8]) -> Stepped
    requires { room_asked (length piece.now) ≤ length out.old }
    ensures { WentTo (step_of (in_sheet (held_in held)) piece.now) out.old 0 result out.new }
{
    let room = MOST - held.as_slice().len();
    let more = held::with(held, piece, MOST);
    if piece.len() < room {
        return Stepped {
            look: Look::Sheet(more),
            written: 0,
        };
    }
    decide(out, more.as_slice(), &piece[room..])
}

// Takes a piece of the input, and prints the lines that end in it: how many octets, and what is kept for the next piece; or 11, where the
// buffer has not ROOM and ten octets for each of the piece.
pub fn step(look: Look, piece: &[u8], out: &mut [u8]) -> Result<Stepped, Refusal>
    ensures { step≡ look piece.now out.old result out.new }
{
    if !lines::has_room(out.len(), 0, piece.len() + BESIDE) {
        return Err(Refusal::NoRoom);
    }
    match look {
        Look::Sheet(held) => Ok(in_sheet(out, held, piece)),
        Look::Lines { numbers, held } => Ok(in_lines(out, 0, numbers, held, piece)),
        Look::Refused => Ok(Stepped { look, written: 0 }),
    }
}

// Puts the last line, where one is begun, and gives the place past it.
fn put_end(out: &mut [u8], at: usize, look: Look) -> usize
    requires { at + last_room (state_of look) ≤ length out.old }
    ensures { Put (last_text (state_of look)) out.old at result out.new }
{
    match look {
        Look::Lines { numbers, held } => lines::put_last(out, at, numbers, held),
        _ => at,
    }
}

// Prints what is left at the end of the input: how many octets, or 11, where the buffer has not ROOM.
pub fn end(look: Look, out: &mut [u8]) -> Result<usize, Refusal>
    ensures { end≡ look out.old result out.new }
{
    if out.len() < ROOM {
        return Err(Refusal::NoRoom);
    }
    match look {
        Look::Sheet(held) => {
            let went = decide(out, held.as_slice(), &[]);
            Ok(put_end(out, went.written, went.look))
        }
        Look::Lines { numbers, held } => Ok(lines::put_last(out, 0, numbers, held)),
        Look::Refused => Ok(0),
    }
}

// Whether the sheet was refused, so that nothing more is printed, whatever comes.
pub fn is_refused(look: Look) -> bool
    ensures { is_refused≡ look result }
{
    matches!(look, Look::Refused)
}
