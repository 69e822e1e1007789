// The bench program (document 01, "Bench program"): standard input is a call sheet and then packets in hex, one a line; standard output has a
// line for each packet. It holds no rule of its own: what is printed is `look`'s.
#![tactic(auto)]

ghost use Rattle.std.specs.Prelude.{◌≡◌, ◌+◌, ◌≤◌, ◌<◌, length};
ghost use Rattle.look.specs.Steps.{state_of, look_as, step_of, end_of};
ghost use Rattle.mcvlook.specs.Gathered.{Gathers};

use look::{Look, Stepped};
use std::io::{Print, Read, Stdin, Stdout};

// Input is read in pieces of at most so many octets; output is written once as many are gathered, and at the end.
const PIECE: usize = 16384;

// The room for output: what is gathered and not yet written, and what one more piece of the input prints.
const OUT: usize = 196608;

// What a turn goes on with: what is kept, and how much output is gathered, less than is written at once.
#[derive(Clone, Copy)]
struct Turn {
    look: Look,
    gathered: usize,
    ghost less: { gathered < 16384 },
}

// Prints what comes of a piece behind what is gathered. There is room for it.
fn gather(turn: Turn, piece: &[u8], out: &mut [u8; OUT]) -> Stepped
    requires { length piece.now ≤ 16384 }
    ensures { Gathers (step_of (state_of turn.look) piece.now).text out.old turn.gathered (turn.gathered + result.written) out.new
        × (result.look ≡ look_as (step_of (state_of turn.look) piece.now).to) }
{
    let Ok(stepped) = look::step(turn.look, piece, &mut out[turn.gathered..]) else {
        unreachable!()
    };
    stepped
}

// Prints what is left at the end behind what is gathered, and gives the place past it. There is room for it.
fn gather_last(turn: Turn, out: &mut [u8; OUT]) -> usize
    ensures { Gathers (end_of (state_of turn.look)) out.old turn.gathered result out.new }
{
    let Ok(octets) = look::end(turn.look, &mut out[turn.gathered..]) else {
        unreachable!()
    };
    turn.gathered + octets
}

// Writes what is gathered, where it fills a piece.
fn write_some(stdout: Stdout, look: Look, out: &[u8; OUT], gathered: usize) -> Option<Turn>
    requires { gathered ≤ 196608 }
{
    if gathered < PIECE {
        return Some(Turn { look, gathered });
    }
    stdout.write_all(&out[..gathered]).ok()?;
    Some(Turn { look, gathered: 0 })
}

// Writes all that is gathered, at the end.
fn finish(stdout: Stdout, out: &[u8; OUT], gathered: usize)
    requires { gathered ≤ 196608 }
{
    let _ = stdout.write_all(&out[..gathered]);
}

// Reads a piece, and prints and writes what comes of it. At the end of the input, where a read fails, and behind a refused sheet, all that is
// gathered is written, and there is no next turn.
fn take_turn(mut stdin: Stdin, stdout: Stdout, turn: Turn, out: &mut [u8; OUT]) -> Option<Turn> {
    let mut piece = [0u8; PIECE];
    let Ok(n) = stdin.read(&mut piece) else {
        finish(stdout, out, turn.gathered);
        return None;
    };
    if n == 0 {
        let end = gather_last(turn, out);
        finish(stdout, out, end);
        return None;
    }
    let stepped = gather(turn, &piece[..n], out);
    let end = turn.gathered + stepped.written;
    if look::is_refused(stepped.look) {
        finish(stdout, out, end);
        return None;
    }
    write_some(stdout, stepped.look, out, end)
}

// A proved loop has to end, and nothing says that the input does: the turns are counted, up to a number that no run uses up.
fn look_through(stdin: Stdin, stdout: Stdout, out: &mut [u8; OUT]) {
    let mut turn = Turn {
        look: look::start(),
        gathered: 0,
    };
    for _ in 0..u64::MAX {
        let Some(next) = take_turn(stdin, stdout, turn, out) else {
            break;
        };
        turn = next;
    }
}

fn main(rt: HostRuntime) {
    let mut out = [0u8; OUT];
    look_through(rt.stdin(), rt.stdout(), &mut out);
}
