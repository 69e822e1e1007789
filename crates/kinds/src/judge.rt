// The fields of a packet judged against what its kind takes (document 01, "Packet", and refusal 5).
ghost use Rattle.std.specs.Prelude.{◌≡◌, T};
ghost use Rattle.fields.specs.Walk.{field_at, field_right, fields_of};
ghost use Rattle.kinds.specs.Judge.{fits, granted};
ghost use Rattle.kinds.specs.Inner.{Walked, JudgedIs, open_in, used_in, lack_in};

use super::Places;
use super::kind::{Form, SLOTS, Slots};
use fields::codes::FIRST_FIELD;
use fields::walk::size_of;
use octets::u16_of;
use seats::user::is_user_id;
use sheet::Refusal;

// Whether the field at a place has a value of this form.
#[tactic(auto, using(fields::proofs::Laws::Walk::right_word, fields::proofs::Laws::Walk::right_value))]
fn fits(packet: &[u8], at: usize, form: Form) -> bool
    requires { T (field_right packet.now at) }
    ensures { result ≡ fits form packet.now (field_at packet.now at) }
{
    let len = packet[at + 1] as usize;
    let value = at + 2;
    match form {
        Form::UserId => is_user_id(&packet[value..value + len]),
        Form::Number => len == 2,
        Form::Cause => 2 <= len,
        Form::Result => len == 2 && u16_of(packet[value], packet[value + 1]) <= 1,
        Form::MessageType => len == 2 && packet[value + 1] == 0,
        Form::Barred => false,
    }
}

// The first slot with this ID that is still open.
fn open_slot(slots: Slots, places: Places, id: u32) -> Option<usize>
    ensures { result ≡ open_in slots places id }
{
    slots
        .iter()
        .zip(places.iter())
        .position(|(slot, place)| slot.id == id && *place == 0)
}

// Whether the message has a use for a field with this ID.
fn uses(slots: Slots, id: u32) -> bool
    ensures { result ≡ used_in slots id }
{
    slots.iter().any(|slot| slot.id == id)
}

// Whether a slot that must be filled is open.
fn lacks(slots: Slots, places: Places) -> bool
    ensures { result ≡ lack_in slots places }
{
    slots
        .iter()
        .zip(places.iter())
        .any(|(slot, place)| slot.must && *place == 0)
}

// A packet whose walk is whole.
#[derive(Clone, Copy)]
pub struct Whole<'a> {
    pub packet: &'a [u8],
    pub ghost walked: { Walked packet.now },
}

impl<'a> Whole<'a> {
    // Whether the packet's first Result is 1.
    #[tactic(auto, using(fields::proofs::Laws::Walk::whole_word, fields::proofs::Laws::Walk::whole_size, fields::proofs::Laws::Walk::size_least))]
    pub fn is_granted(self, resultid: u32) -> bool
        ensures { result ≡ granted self.entry.packet.now resultid (fields_of self.entry.packet.now) }
    {
        let packet = self.packet;
        let mut at = FIRST_FIELD;
        // It goes on by the size of each field. (An iterator of fields would be a third walk, with laws of its own.)
        while at < packet.len() {
            if (packet[at] as u32) == resultid {
                return packet[at + 1] == 2 && u16_of(packet[at + 2], packet[at + 3]) == 1;
            }
            at += size_of(packet[at + 1] as u32);
        }
        false
    }

    // The places of the fields in their slots, or 5 for one that is at fault or missing.
    #[tactic(auto, using(fields::proofs::Laws::Walk::whole_word, fields::proofs::Laws::Walk::whole_size, fields::proofs::Laws::Walk::size_least))]
    pub fn judge(self, slots: Slots) -> Result<Places, Refusal>
        ensures { JudgedIs self.entry.packet.now slots result }
    {
        let packet = self.packet;
        let mut places = [0usize; SLOTS];
        let mut at = FIRST_FIELD;
        // As above it goes on by the size of each field.
        while at < packet.len() {
            let id = packet[at] as u32;
            match open_slot(slots, places, id) {
                Some(i) => {
                    if !fits(packet, at, slots[i].form) {
                        return Err(Refusal::Fields);
                    }
                    places[i] = at;
                }
                None => if uses(slots, id) {
                    return Err(Refusal::Fields);
                },
            }
            at += size_of(packet[at + 1] as u32);
        }
        if lacks(slots, places) {
            return Err(Refusal::Fields);
        }
        Ok(places)
    }
}
