// Which of the seven kinds of message a packet is, and where its fields stand (document 01, "Packet", and "Refusals": 1, 2, 3, 4 and 5, in that
// order).
#![tactic(auto)]

pub mod codes;
mod judge;
mod kind;

ghost use Rattle.kinds.specs.Reading.{read_as};
ghost use Rattle.kinds.specs.Found.{kind_number, kind_numbered};
ghost use Rattle.kinds.specs.Inner.{FoundIs};
ghost use Rattle.kinds.specs.Promises.{found_by≡};

use fields::codes::FIRST_FIELD;
use fields::header::check;
use fields::walk::walk;
use judge::Whole;
pub use kind::Kind;
use sheet::Refusal;

// What the reader looks at of a sheet.
#[derive(Clone, Copy)]
pub struct Numbers {
    pub request: u32,
    pub response: u32,
    pub endrequest: u32,
    pub endresponse: u32,
    pub txend: u32,
    pub txendresponse: u32,
    pub ack: u32,
    pub resultid: u32,
}

// The place of the field in each slot of a kind; where there is none 0, at which no field stands. (No Option: there would be one to unwrap wherever a kind must have
// the field. Beside the slots and not in them, as the places alone are handed out.)
pub type Places = [usize; kind::SLOTS];

// The kind of a packet, and the places of its fields.
#[derive(Clone, Copy)]
pub struct Found {
    pub kind: Kind,
    pub places: Places,
}

// The fields of a packet of this kind whose walk is whole, or 5.
fn sorted(numbers: Numbers, whole: Whole, kind: Kind) -> Result<Found, Refusal>
    ensures { FoundIs numbers whole.entry.packet.now (read_as numbers whole.entry.packet.now (kind_numbered numbers (kind_number kind))) result }
{
    let granted = kind == Kind::ReceiveResponse && whole.is_granted(numbers.resultid);
    let places = whole.judge(kind::slots_of(numbers, kind, granted))?;
    Ok(Found { kind, places })
}

// What a packet is under these numbers, or 1, 2, 3, 4 or 5.
pub fn found_by(numbers: Numbers, packet: &[u8]) -> Result<Found, Refusal>
    ensures { found_by≡ numbers packet.now result }
{
    check(packet)?;
    let kind = kind::kind_of(numbers, packet).ok_or(Refusal::Kind)?;
    if walk(packet, FIRST_FIELD) < packet.len() {
        return Err(Refusal::Layout);
    }
    sorted(numbers, Whole { packet }, kind)
}
