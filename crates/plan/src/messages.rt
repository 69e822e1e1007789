// Each message as a packet: its letters, its number on the sheet, and its fields in the order written (document 01, "Packet").
ghost use Rattle.std.specs.Prelude.{◌≡◌, ℕ, ◌+◌, ◌<◌, ◌≤◌, T, get_or};
ghost use Rattle.sheet.specs.Value.{sheet_from};
ghost use Rattle.kinds.specs.Found.{kind_number};
ghost use Rattle.plan.specs.Packet.{first_octet, fitting};
ghost use Rattle.plan.specs.Inner.{number_part, optional_part, named_part, letters_for, parts_for, plan_for, indicator_fits, numbers_fit, message_from};

use super::standing::Row;
use super::{PARTS, Part, Plan};
use kinds::codes::{MCV0, MCV1, MCV2};
use kinds::{Kind, codes};
use packet::Name;
use packet::row::{ABOUT, ACK, CAUSE, INDICATOR, NAMED, NONE, NUMBERS, RESULT, SOURCE, SSRC, USER};
use sheet::numbers::{
    END_REQUEST, END_RESPONSE, Numbers, REQUEST, RESPONSE, RESULT_ID, TX_END, TX_END_RESPONSE,
};

// Version 2 and padding bit 0, in the first octet.
const PLAIN: u8 = 128;

// The same with the first bit of the subtype, which asks for an Ack.
const ASKING: u8 = PLAIN + 16;

// A message's number goes into four bits.
const NUMBER_END: u32 = 16;

// No ID is as great.
const ID_END: u32 = fields::codes::ID_END as u32;

// Whether the messages' numbers and the Result's ID go into their places in a packet. The messages' lines stand together, the Result's ID behind them.
// No exit before the last, so that they are compared together.
pub fn fit(numbers: &Numbers) -> bool
    ensures { result ≡ fitting numbers.now }
{
    let mut good = numbers[RESULT_ID] < ID_END;
    for &number in &numbers[REQUEST..RESULT_ID] {
        good = good & (number < NUMBER_END);
    }
    good
}

// A field with a number: ID octet, length octet 2 and the number are one word.
fn numbered(id: u32, number: u32) -> Part
    requires { (id < 256) × (number < 65536) }
    ensures { result ≡ number_part id number }
{
    Part::Word(id * 0x1000000 + 0x20000 + number)
}

// The same of the number that stands here in a row, where there is one.
#[tactic(auto, using(crate::proofs::Laws::Rows::narrow))]
fn optional(id: u32, message: &[u32; NUMBERS], at: usize) -> Part
    requires { (id < 256) × (at < 12) × T (indicator_fits (get_or message.now at 0)) }
    ensures { result ≡ optional_part id (get_or message.now at 0) }
{
    let number = message[at];
    if number == NONE {
        Part::Absent
    } else {
        numbered(id, number)
    }
}

// Version 2, padding bit 0, the bit that asks for an Ack, and the message's number.
#[tactic(auto, unfolding(crate::specs::Packet::first_octet))]
fn start_of(ack: bool, number: u32) -> u8
    requires { number < 16 }
    ensures { result ≡ first_octet ack number }
{
    if ack {
        ASKING + (number as u8)
    } else {
        PLAIN + (number as u8)
    }
}

// The letters of a kind.
fn letters_of(kind: Kind) -> u32
    ensures { result ≡ letters_for (kind_number kind) }
{
    match kind {
        Kind::ReceiveRequest => MCV0,
        Kind::ReceiveResponse => MCV1,
        _ => MCV2,
    }
}

// The line of a kind's number on the sheet.
fn line_of(kind: Kind) -> usize
    ensures { (result ≡ 1 + kind_number kind) × (result < 19) }
{
    match kind {
        Kind::ReceiveRequest => REQUEST,
        Kind::ReceiveResponse => RESPONSE,
        Kind::EndRequest => END_REQUEST,
        Kind::EndResponse => END_RESPONSE,
        Kind::TransmissionEnd => TX_END,
        Kind::TransmissionEndResponse => TX_END_RESPONSE,
        Kind::Ack => sheet::numbers::ACK,
    }
}

// A field with the name whose place stands here in a row, and its length behind that.
fn named(message: &[u32; NUMBERS], at: usize) -> Part
    requires { at + 1 < 12 }
    ensures { result ≡ named_part message.now at }
{
    Part::Named(Name {
        at: message[at],
        len: message[at + 1],
    })
}

// The fields of the message of a row, where the Result has this ID. (Inlined, as is the plan: a call gives them back through memory.)
#[tactic(auto, using(crate::proofs::Laws::From::parts))]
#[inline(always)]
fn parts_of(result_id: u32, row: Row) -> [Part; PARTS]
    requires { (result_id < 256) × T (numbers_fit row.message.now) }
    ensures { result ≡ parts_for result_id (message_from row.entry.message.now) }
{
    let message = row.message;
    match row.kind {
        Kind::ReceiveRequest => [
            named(message, USER),
            named(message, NAMED),
            optional(codes::INDICATOR, message, INDICATOR),
        ],
        Kind::ReceiveResponse => [
            numbered(result_id, message[RESULT]),
            optional(codes::REJECT_CAUSE, message, CAUSE),
            optional(codes::INDICATOR, message, INDICATOR),
        ],
        Kind::EndRequest => [
            named(message, NAMED),
            optional(codes::INDICATOR, message, INDICATOR),
            Part::Absent,
        ],
        Kind::EndResponse => [named(message, NAMED), Part::Absent, Part::Absent],
        Kind::TransmissionEnd => [
            numbered(codes::REJECT_CAUSE, message[CAUSE]),
            optional(codes::INDICATOR, message, INDICATOR),
            Part::Absent,
        ],
        Kind::TransmissionEndResponse => [Part::Absent; PARTS],
        Kind::Ack => [
            numbered(codes::SOURCE, message[SOURCE]),
            numbered(codes::MESSAGE_TYPE, message[ABOUT] * 256),
            Part::Absent,
        ],
    }
}

// The plan of the message of a row, under these numbers.
#[tactic(auto, using(crate::proofs::Laws::From::plans))]
#[inline(always)]
pub fn plan_for(numbers: &Numbers, row: Row) -> Plan
    requires { T (fitting numbers.now) × T (numbers_fit row.message.now) }
    ensures { result ≡ plan_for (sheet_from numbers.now) (message_from row.entry.message.now) }
{
    let message = row.message;
    Plan {
        start: start_of(message[ACK] == 1, numbers[line_of(row.kind)]),
        letters: letters_of(row.kind),
        ssrc: message[SSRC],
        parts: parts_of(numbers[RESULT_ID], row),
    }
}
