// The seven messages and the fields of each (document 01, "Packet").
ghost use Rattle.std.specs.Prelude.{◌≡◌, ◌≤◌, length};
ghost use Rattle.kinds.specs.Kind.{row, unless_granted, settled, kind_of};
ghost use Rattle.kinds.specs.Found.{kind_number, slots_numbered};
ghost use Rattle.kinds.specs.Inner.{row_found, mcv2_kind};

use super::Numbers;
use super::codes::{INDICATOR, MCV0, MCV1, MCV2, MESSAGE_TYPE, REJECT_CAUSE, SOURCE, USER_ID};

// The seven kinds of message, in the order of document 01's table.
#[derive(Clone, Copy, PartialEq, Eq)]
pub enum Kind {
    ReceiveRequest,
    ReceiveResponse,
    EndRequest,
    EndResponse,
    TransmissionEnd,
    TransmissionEndResponse,
    Ack,
}

// The forms of a field's value. Nothing fits where it is barred.
#[derive(Clone, Copy)]
pub enum Form {
    UserId,
    Number,
    Cause,
    Result,
    MessageType,
    Barred,
}

// A place for a field in a message: the ID, the form of its value, and whether it must be there.
#[derive(Clone, Copy)]
pub struct Slot {
    pub id: u32,
    pub form: Form,
    pub must: bool,
}

// The most fields that a message has.
pub const SLOTS: usize = 3;

pub type Slots = [Slot; SLOTS];

// No field has this ID. (No Option of a slot: it would be one level more wherever slots are looked at.)
const UNUSED: u32 = 256;

// The kind of MCV2 with a number.
#[tactic(auto, unfolding(crate::specs::Inner::mcv2_kind))]
fn mcv2_kind(n: Numbers, number: u32) -> Option<Kind>
    ensures { result ≡ mcv2_kind n number }
{
    if number == n.endrequest {
        Some(Kind::EndRequest)
    } else if number == n.endresponse {
        Some(Kind::EndResponse)
    } else if number == n.txend {
        Some(Kind::TransmissionEnd)
    } else if number == n.txendresponse {
        Some(Kind::TransmissionEndResponse)
    } else if number == n.ack {
        Some(Kind::Ack)
    } else {
        None
    }
}

// The kind of a packet, by its letters and number together. (That its head is there is asked in three crates, once in each: a type for the front of a packet would be
// made anew in each.)
#[tactic(auto, using(crate::proofs::Laws::Kinds::letters_decide), unfolding(fields::specs::Header::number_in))]
pub fn kind_of(n: Numbers, packet: &[u8]) -> Option<Kind>
    requires { 12 ≤ length packet.now }
    ensures { kind_of n packet.now ≡ row_found n result }
{
    let letters = octets::u32_at(packet, 8);
    let number = (packet[0] % 16) as u32;
    match letters {
        MCV2 => mcv2_kind(n, number),
        MCV0 if number == n.request => Some(Kind::ReceiveRequest),
        MCV1 if number == n.response => Some(Kind::ReceiveResponse),
        _ => None,
    }
}

// A slot with these parts.
fn slot_for(id: u32, form: Form, must: bool) -> Slot
    ensures { result ≡ record { id = id; form = form; must = must } }
{
    Slot { id, form, must }
}

// A Reject Cause that must be there, and one that is refused beside Result 1.
#[tactic(auto, unfolding(crate::specs::Kind::settled))]
fn cause(granted: bool) -> Slot
    ensures { result ≡ settled granted (row 2 Form.Cause unless_granted) }
{
    if granted {
        slot_for(REJECT_CAUSE, Form::Barred, false)
    } else {
        slot_for(REJECT_CAUSE, Form::Cause, true)
    }
}

// The slots of a kind, in the order written, once it is known whether the packet's Result is 1.
#[tactic(auto, unfolding(crate::specs::Found::slots_numbered, crate::specs::Found::kind_numbered, crate::specs::Kind::kinds, crate::specs::Kind::slots_of, crate::specs::Kind::settled, octets::specs::Buffer::padded))]
pub fn slots_of(n: Numbers, kind: Kind, granted: bool) -> Slots
    ensures { result ≡ slots_numbered n (kind_number kind) granted }
{
    let user = slot_for(USER_ID, Form::UserId, true);
    let indicator = slot_for(INDICATOR, Form::Number, false);
    let none = slot_for(UNUSED, Form::Barred, false);
    match kind {
        Kind::ReceiveRequest => [user, user, indicator],
        Kind::ReceiveResponse => [
            slot_for(n.resultid, Form::Result, true),
            cause(granted),
            indicator,
        ],
        Kind::EndRequest => [user, indicator, none],
        Kind::EndResponse => [user, none, none],
        Kind::TransmissionEnd => [cause(false), indicator, none],
        Kind::TransmissionEndResponse => [none, none, none],
        Kind::Ack => [
            slot_for(SOURCE, Form::Number, true),
            slot_for(MESSAGE_TYPE, Form::MessageType, true),
            none,
        ],
    }
}
