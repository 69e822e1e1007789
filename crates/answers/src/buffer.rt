// A buffer that a message was written into, among the octets of an answer: how many were written (eight octets), the refusal's
// number and line (four each), the buffer itself, and what was written as it reads back, where something was.
ghost use Rattle.std.specs.Prelude.{◌≤◌};

use super::part::{behind, first};
use super::{message, question};
use asked::reply::Reply;
use asked::{MOST, NUMBERS};
use std::array;

// The most octets that a buffer has.
pub const ROOM: usize = MOST - 16;

// Where the octets begin that the message's names lie in.
pub const NAMES: usize = NUMBERS + message::LENGTH + 4;

// The largest buffer before it is lent: each octet depends on its place.
pub fn filled() -> [u8; ROOM] {
    array::from_fn(|i| ((i % 251 * 37 + 11) % 251) as u8)
}

// What is written of the message behind a value's numbers, into a buffer of so many octets.
pub fn write(body: &[u8], room: usize) -> Reply
    requires { room ≤ 956 }
{
    let sheet = asked::sheet_in(body);
    let message = message::message_in(behind(body, NUMBERS));
    let mut buffer = filled();
    let lent = &mut buffer[..room];
    let written = writing::write(sheet, message, behind(body, NAMES), lent).map(|n| n as usize);
    let mut reply = Reply::empty();
    question::put_result(&mut reply, written);
    reply.octets(lent);
    if let Ok(n) = written {
        reply.numbers(&message::row_of(packet::read(sheet, first(lent, n))));
    }
    reply
}
