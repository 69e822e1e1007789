// What is printed for a packet that was read (document 01, "Bench program"): its ten values, or its refusal.
ghost use Rattle.std.specs.Prelude.{◌≡◌, ◌+◌, ◌≤◌, [], map, length};
ghost use Rattle.kinds.specs.Reading.{refused};
ghost use Rattle.packet.specs.Message.{read_said};
ghost use Rattle.shown.specs.Line.{text_of};
ghost use Rattle.shown.specs.Inner.{value_said, ten_line};
ghost use Rattle.shown.specs.Promises.{Put};

use super::values::{Values, values_of};
use super::{LF, decimal, values};
use packet::Message;
use packet::row::row_of;
use sheet::Refusal;

const REFUSED: [u8; 8] = *b"refused=";

// How many octets the line of a refusal has.
pub fn refused_length(number: u32) -> usize
    ensures { result ≡ length (text_of [] (refused number 0)) }
{
    REFUSED.len() + decimal::length_of(number) + 1
}

// How many octets the line of what was read has.
pub fn length_of(read: Result<Message, Refusal>, packet: &[u8]) -> usize
    ensures { result ≡ length (text_of packet.now (read_said read)) }
{
    match read {
        Ok(message) => values::length_of(&values_of(row_of(message)), packet) + 1,
        Err(refusal) => refused_length(refusal.number()),
    }
}

// Puts the line of a refusal at a place, and gives the place past it.
pub fn put_refused(out: &mut [u8], at: usize, number: u32) -> usize
    requires { at + length (text_of [] (refused number 0)) ≤ length out.old }
    ensures { Put (text_of [] (refused number 0)) out.old at result out.new }
{
    let name = REFUSED;
    decimal::put_line(out, at, &name, number)
}

// Puts the line of ten values at a place, and gives the place past it.
fn put_ten(out: &mut [u8], at: usize, values: &Values, packet: &[u8]) -> usize
    requires { at + length (ten_line packet.now (map value_said values.now)) ≤ length out.old }
    ensures { Put (ten_line packet.now (map value_said values.now)) out.old at result out.new }
{
    let end = values::put(out, at, values, packet);
    out[end] = LF;
    end + 1
}

// Puts the line of what was read at a place, and gives the place past it.
pub fn put(out: &mut [u8], at: usize, read: Result<Message, Refusal>, packet: &[u8]) -> usize
    requires { at + length (text_of packet.now (read_said read)) ≤ length out.old }
    ensures { Put (text_of packet.now (read_said read)) out.old at result out.new }
{
    match read {
        Ok(message) => put_ten(out, at, &values_of(row_of(message)), packet),
        Err(refusal) => put_refused(out, at, refusal.number()),
    }
}
