// A message as a row of numbers: kind, SSRC, Ack asked, User ID's place and length, named transmitter's place and length, Result, cause, Indicator,
// Source, Message Type (document 01, "Bench program": the ten values of a message; a name has two numbers). Numbers, a kind's too, as they are what C lends and
// is lent.
ghost use Rattle.std.specs.Prelude.{◌≡◌, T};
ghost use Rattle.packet.specs.Inner.{indicator_number, result_number, cause_number, row_with, is_indicator, is_verdict};
ghost use Rattle.packet.specs.Promises.{row_of≡};

use super::{Head, Message, Name, Verdict};

// Where in a row each stands; of a name its place, and its length behind that.
pub const KIND: usize = 0;

pub const SSRC: usize = 1;

pub const ACK: usize = 2;

pub const USER: usize = 3;

pub const NAMED: usize = 5;

pub const RESULT: usize = 7;

pub const CAUSE: usize = 8;

pub const INDICATOR: usize = 9;

pub const SOURCE: usize = 10;

pub const ABOUT: usize = 11;

// How many numbers a row has.
pub const NUMBERS: usize = 12;

// MCV_NONE, where there is no number.
pub const NONE: u32 = 4294967295;

// Where a message has no name.
const NOBODY: Name = Name { at: 0, len: 0 };

fn indicated(indicator: Option<u16>) -> u32
    ensures { (result ≡ indicator_number indicator) × T (is_indicator indicator) }
{
    match indicator {
        None => NONE,
        Some(number) => u32::from(number),
    }
}

fn result_of(verdict: Verdict) -> u32
    ensures { result ≡ result_number verdict }
{
    match verdict {
        Verdict::Granted => 1,
        Verdict::Rejected(_) => 0,
    }
}

fn cause_of(verdict: Verdict) -> u32
    ensures { (result ≡ cause_number verdict) × T (is_verdict verdict) }
{
    match verdict {
        Verdict::Granted => NONE,
        Verdict::Rejected(cause) => cause as u32,
    }
}

// A row with these numbers. (A struct of the seven behind the head was tried: reading P1 then took 463 instructions in place of 415.)
fn row_with(
    kind: u32,
    head: Head,
    user: Name,
    named: Name,
    res: u32,
    cause: u32,
    indicator: u32,
    source: u32,
    about: u32,
) -> [u32; NUMBERS]
    ensures { result ≡ row_with kind head user named res cause indicator source about }
{
    [
        kind,
        head.ssrc,
        head.ack as u32,
        user.at,
        user.len,
        named.at,
        named.len,
        res,
        cause,
        indicator,
        source,
        about,
    ]
}

// The row of a message, which stands for it.
pub fn row_of(message: Message) -> [u32; NUMBERS]
    ensures { row_of≡ message result }
{
    match message {
        Message::ReceiveRequest {
            head,
            user,
            source,
            indicator,
        } => row_with(
            1,
            head,
            user,
            source,
            NONE,
            NONE,
            indicated(indicator),
            NONE,
            NONE,
        ),
        Message::ReceiveResponse {
            head,
            verdict,
            indicator,
        } => row_with(
            2,
            head,
            NOBODY,
            NOBODY,
            result_of(verdict),
            cause_of(verdict),
            indicated(indicator),
            NONE,
            NONE,
        ),
        Message::EndRequest {
            head,
            transmitter,
            indicator,
        } => row_with(
            3,
            head,
            NOBODY,
            transmitter,
            NONE,
            NONE,
            indicated(indicator),
            NONE,
            NONE,
        ),
        Message::EndResponse { head, transmitter } => {
            row_with(4, head, NOBODY, transmitter, NONE, NONE, NONE, NONE, NONE)
        }
        Message::TransmissionEnd {
            head,
            cause,
            indicator,
        } => row_with(
            5,
            head,
            NOBODY,
            NOBODY,
            NONE,
            cause as u32,
            indicated(indicator),
            NONE,
            NONE,
        ),
        Message::TransmissionEndResponse { head } => {
            row_with(6, head, NOBODY, NOBODY, NONE, NONE, NONE, NONE, NONE)
        }
        Message::Ack {
            head,
            source,
            about,
        } => row_with(
            7,
            head,
            NOBODY,
            NOBODY,
            NONE,
            NONE,
            NONE,
            source as u32,
            about as u32,
        ),
    }
}
