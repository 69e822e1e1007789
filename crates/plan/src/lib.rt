// The packet that a message is written as, before an octet of it is put: the header's values and the fields, or why there is none (document 01,
// "Packet"; RFC 3550, 6.7).
#![tactic(auto)]

mod messages;
mod names;
pub mod sizes;
mod standing;

ghost use Rattle.plan.specs.Promises.{plan_of≡};

use packet::Name;
use packet::row::{KIND, NUMBERS};
use sheet::{Refusal, numbers};
use standing::Row;

// A field to be written: none, one that fills a word, or a User ID. (An Option of the other two would be one level more at each match.)
#[derive(Clone, Copy)]
pub enum Part {
    Absent,
    Word(u32),
    Named(Name),
}

// No message has more fields.
pub const PARTS: usize = 3;

// The first octet, the letters as one number, the SSRC, and the fields in the order written.
#[derive(Clone, Copy)]
pub struct Plan {
    pub start: u8,
    pub letters: u32,
    pub ssrc: u32,
    pub parts: [Part; PARTS],
}

// The plan of the message of a row (`packet::row`) whose names lie in `names`, under these numbers; or 12 line 0 where they go into no packet, or 5,
// checked in that order. Whether a sheet has the numbers is not asked.
#[tactic(auto, using(crate::proofs::Laws::Planning::checks))]
pub fn plan_of(numbers: &[u32], message: &[u32], names: &[u8]) -> Result<Plan, Refusal>
    ensures { plan_of≡ numbers.now message.now names.now result }
{
    let Ok(numbers) = <&numbers::Numbers>::try_from(numbers) else {
        return Err(Refusal::Sheet(0));
    };
    if !messages::fit(numbers) {
        return Err(Refusal::Sheet(0));
    }
    let Ok(message) = <&[u32; NUMBERS]>::try_from(message) else {
        return Err(Refusal::Fields);
    };
    let Some(kind) = standing::kind_of(message[KIND]) else {
        return Err(Refusal::Fields);
    };
    let row = Row { kind, message };
    if !standing::stands(row) || !names::are_right(row, names) {
        return Err(Refusal::Fields);
    }
    Ok(messages::plan_for(numbers, row))
}
