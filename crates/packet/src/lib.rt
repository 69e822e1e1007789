// RTCP APP packets of MCVideo (document 01, "Packet"; RFC 3550, 6.7), read as one of seven messages.
#![tactic(auto)]

pub mod row;
mod values;

ghost use Rattle.sheet.specs.Value.{sheet_in};
ghost use Rattle.kinds.specs.Kind.{numbers_of};
ghost use Rattle.kinds.specs.Promises.{found_by≡};
ghost use Rattle.packet.specs.Promises.{numbers_of≡, read_by≡, read≡, asked≡};

pub use kinds::Numbers;
use kinds::{Found, found_by};
use sheet::numbers::{
    ACK, END_REQUEST, END_RESPONSE, LINES, REQUEST, RESPONSE, RESULT_ID, TX_END, TX_END_RESPONSE,
    are_valid,
};
use sheet::{Refusal, Sheet};

// All zero.
pub const NO_NUMBERS: Numbers = Numbers {
    request: 0,
    response: 0,
    endrequest: 0,
    endresponse: 0,
    txend: 0,
    txendresponse: 0,
    ack: 0,
    resultid: 0,
};

// What every message has: its sender's SSRC, and whether it asks for an Ack.
#[derive(Clone, Copy)]
pub struct Head {
    pub ssrc: u32,
    pub ack: bool,
}

// A User ID, by its place in the octets lent beside the message and its length.
#[derive(Clone, Copy)]
pub struct Name {
    pub at: u32,
    pub len: u32,
}

// Result 1, or Result 0 with its Reject Cause. No Result of Rattle's: a message that says Rejected was read well.
#[derive(Clone, Copy)]
pub enum Verdict {
    Granted,
    Rejected(u16),
}

// The seven messages, in the order of document 01's kinds. The Transmission Indicator may be absent.
#[derive(Clone, Copy)]
pub enum Message {
    ReceiveRequest {
        head: Head,
        user: Name,
        source: Name,
        indicator: Option<u16>,
    },
    ReceiveResponse {
        head: Head,
        verdict: Verdict,
        indicator: Option<u16>,
    },
    EndRequest {
        head: Head,
        transmitter: Name,
        indicator: Option<u16>,
    },
    EndResponse {
        head: Head,
        transmitter: Name,
    },
    TransmissionEnd {
        head: Head,
        cause: u16,
        indicator: Option<u16>,
    },
    TransmissionEndResponse {
        head: Head,
    },
    Ack {
        head: Head,
        source: u16,
        about: u8,
    },
}

// What a packet asks of the controller: of the kinds that make an event, what the event goes by.
#[derive(Clone, Copy)]
pub enum Asked {
    Request { ssrc: u32, user: Name, source: Name },
    End { ssrc: u32, transmitter: Name },
    EndResponse { head: Head },
}

// What the reader looks at of numbers that are lent; zeros where there are not as many as a sheet has. (No Option: `asked≡` speaks of `sheet_in`, which is all
// zeros there.)
fn numbers_in(numbers: &[u32]) -> Numbers
    ensures { numbers_of≡ (sheet_in numbers.now) result }
{
    if numbers.len() != LINES {
        return NO_NUMBERS;
    }
    Numbers {
        request: numbers[REQUEST],
        response: numbers[RESPONSE],
        endrequest: numbers[END_REQUEST],
        endresponse: numbers[END_RESPONSE],
        txend: numbers[TX_END],
        txendresponse: numbers[TX_END_RESPONSE],
        ack: numbers[ACK],
        resultid: numbers[RESULT_ID],
    }
}

// What it looks at of a sheet.
pub fn numbers_of(sheet: Sheet) -> Numbers
    ensures { numbers_of≡ sheet result }
{
    numbers_in(&sheet::numbers::numbers_of(sheet))
}

// Reads a packet under these numbers: a message, or 1, 2, 3, 4 or 5, checked in that order. Whether a sheet has them is not asked.
pub fn read_by(numbers: Numbers, packet: &[u8]) -> Result<Message, Refusal>
    ensures { read_by≡ numbers packet.now result }
{
    let found = found_by(numbers, packet)?;
    Ok(values::message_of(packet, found))
}

// What a packet is under a sheet's numbers, lent.
fn found_lent(numbers: &[u32], packet: &[u8]) -> Result<Found, Refusal>
    ensures { found_by≡ (numbers_of (sheet_in numbers.now)) packet.now result }
{
    found_by(numbers_in(numbers), packet)
}

// Reads a packet, a sheet's numbers lent: a message, or 12 line 0, 1, 2, 3, 4 or 5, checked in that order.
#[tactic(auto, unfolding(kinds::specs::Reading::read_of))]
pub fn read_lent(numbers: &[u32], packet: &[u8]) -> Result<Message, Refusal>
    ensures { read≡ (sheet_in numbers.now) packet.now result }
{
    if !are_valid(numbers) {
        return Err(Refusal::Sheet(0));
    }
    let found = found_lent(numbers, packet)?;
    Ok(values::message_of(packet, found))
}

// The same, the sheet by value. A trait over both forms would be longer than this one call.
pub fn read(sheet: Sheet, packet: &[u8]) -> Result<Message, Refusal>
    ensures { read≡ sheet packet.now result }
{
    read_lent(&sheet::numbers::numbers_of(sheet), packet)
}

// What a packet asks of the controller, a sheet's numbers lent: nothing, if it is a message of another kind; or 1, 2, 3, 4 or 5. Whether a sheet has the
// numbers is not asked.
#[tactic(auto, unfolding(crate::specs::Asked::asks_of))]
pub fn asked_lent(numbers: &[u32], packet: &[u8]) -> Result<Option<Asked>, Refusal>
    ensures { asked≡ (numbers_of (sheet_in numbers.now)) packet.now result }
{
    let found = found_lent(numbers, packet)?;
    Ok(values::asked_of(packet, found))
}
