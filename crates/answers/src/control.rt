// Questions 13 and 14, about the controller: the event that a packet makes, and the packet that an answer sends.
use super::packets::Packets;
use super::part::behind;
use super::{buffer, value};
use asked::MOST;
use asked::reply::Reply;
use reception::{Answer, Event};
use rows::event;
use sheet::Refusal;

// How many octets an event takes.
const EVENT: usize = 12;

// An event, as four octets: what, stream, by, Ack asked.
fn event_octets(event: Event) -> [u8; 4] {
    let mut row = [0u32; 4];
    let _ = event::put_event(&mut row, event);
    row.map(|n| (n % 256) as u8)
}

// Puts the refusal's number and line, and the event, zeros where there is none.
fn put_offered(reply: &mut Reply, offered: Result<Event, Refusal>) {
    match offered {
        Ok(event) => {
            reply.numbers(&[0, 0]);
            reply.octets(&event_octets(event));
        }
        Err(refusal) => reply.numbers(&[refusal.number(), refusal.line(), 0]),
    }
}

// 13: the event that each packet makes under a value: the refusal's number and line, and the event, four octets each. The packets stand behind
// the value, each behind its count.
pub fn events(body: &[u8]) -> Reply {
    let sheet = asked::sheet_in(body);
    let users = value::users_in(body);
    let packets = Packets {
        rest: behind(body, value::LENGTH),
    };
    let mut reply = Reply::empty();
    for packet in packets.take(MOST / EVENT) {
        put_offered(&mut reply, incoming::event_of(sheet, users, packet));
    }
    reply
}

// An answer by its number, in the order of reception's. (A match on a number, as it comes from outside.)
fn answer_numbered(number: u8, cause: u16) -> Answer {
    match number {
        1 => Answer::GrantedFirst,
        2 => Answer::Granted,
        3 => Answer::GrantedAgain,
        4 => Answer::Rejected(cause),
        5 => Answer::Ended,
        6 => Answer::EndedLast,
        7 => Answer::Opened,
        8 => Answer::EndRequested(cause),
        9 => Answer::Freed,
        10 => Answer::FreedWithAck,
        11 => Answer::ReleasedIdle,
        12 => Answer::ReleasedWatched,
        13 => Answer::ReleasedEnding,
        _ => Answer::Discarded,
    }
}

// What was said (0 refused, 1 written, 2 nothing to send), how many octets were written, the refusal's number and line.
fn sending_row(sending: Result<u32, Refusal>) -> [u32; 4] {
    match sending {
        Ok(0) => [2, 0, 0, 0],
        Ok(octets) => [1, octets, 0, 0],
        Err(refusal) => [0, 0, refusal.number(), refusal.line()],
    }
}

// 14: the packet that an answer sends under a value, into a buffer that was filled. Behind the value stand the stream and the answer's number
// (an octet each), its cause, and the length of the buffer (two octets each). The answer: what was said, four octets each, and the buffer.
pub fn packet(body: &[u8]) -> Reply {
    let room = usize::from(octets::u16_at(body, value::LENGTH + 4));
    let mut reply = Reply::empty();
    if buffer::ROOM < room {
        return reply;
    }
    let mut buffer = buffer::filled();
    let lent = &mut buffer[..room];
    let [stream, number, high, low] = octets::u32_at(body, value::LENGTH).to_be_bytes();
    let answer = answer_numbered(number, u16::from_be_bytes([high, low]));
    let sheet = asked::sheet_in(body);
    let users = value::users_in(body);
    let sending = outgoing::packet_of(sheet, users, stream, answer, lent);
    reply.numbers(&sending_row(sending));
    reply.octets(lent);
    reply
}
