// A message among the octets of a case or an answer: twelve numbers of four octets. They are kind, SSRC, Ack asked; place and
// length of the User ID and of the named transmitter, 0 and 0 where there is none; Result, cause, Indicator, Source and Message
// Type, NONE where there is none. Of a refusal to read one they are 0, its number, its line, and zeros.
ghost use Rattle.std.specs.Prelude.{◌<◌};

use packet::row::{ABOUT, ACK, CAUSE, INDICATOR, KIND, NAMED, NONE, RESULT, SOURCE, SSRC, USER};
use packet::{Head, Message, Name, Verdict, row};
use sheet::Refusal;
use std::array;

// How many octets that takes.
pub const LENGTH: usize = 4 * row::NUMBERS;

type Row = [u32; row::NUMBERS];

// The name whose place is the k-th number.
fn name_in(numbers: &Row, k: usize) -> Name
    requires { k < 11 }
{
    Name {
        at: numbers[k],
        len: numbers[k + 1],
    }
}

// A number by its last two octets alone.
fn short(n: u32) -> u16 {
    (n % 65536) as u16
}

fn verdict_in(numbers: &Row) -> Verdict {
    if numbers[RESULT] == 1 {
        Verdict::Granted
    } else {
        Verdict::Rejected(short(numbers[CAUSE]))
    }
}

fn indicator_in(numbers: &Row) -> Option<u16> {
    if numbers[INDICATOR] == NONE {
        None
    } else {
        Some(short(numbers[INDICATOR]))
    }
}

// The message at the front of a body. (A match on a number, as it comes from outside.)
pub fn message_in(body: &[u8]) -> Message {
    let numbers: Row = array::from_fn(|k| octets::u32_at(body, 4 * k));
    let head = Head {
        ssrc: numbers[SSRC],
        ack: numbers[ACK] == 1,
    };
    let transmitter = name_in(&numbers, NAMED);
    let indicator = indicator_in(&numbers);
    match numbers[KIND] {
        1 => Message::ReceiveRequest {
            head,
            user: name_in(&numbers, USER),
            source: transmitter,
            indicator,
        },
        2 => Message::ReceiveResponse {
            head,
            verdict: verdict_in(&numbers),
            indicator,
        },
        3 => Message::EndRequest {
            head,
            transmitter,
            indicator,
        },
        4 => Message::EndResponse { head, transmitter },
        5 => Message::TransmissionEnd {
            head,
            cause: short(numbers[CAUSE]),
            indicator,
        },
        6 => Message::TransmissionEndResponse { head },
        _ => Message::Ack {
            head,
            source: short(numbers[SOURCE]),
            about: (numbers[ABOUT] % 256) as u8,
        },
    }
}

// What a packet reads to.
pub fn row_of(reading: Result<Message, Refusal>) -> Row {
    match reading {
        Ok(message) => row::row_of(message),
        Err(refusal) => {
            let mut numbers = [0; row::NUMBERS];
            numbers[1] = refusal.number();
            numbers[2] = refusal.line();
            numbers
        }
    }
}
