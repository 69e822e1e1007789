// A packet as an event (document 01, "Stream record": "A packet makes an event only so").
ghost use Rattle.std.specs.Prelude.{◌≡◌, ◌<◌, IfOk, Some, T};
ghost use Rattle.packet.specs.declared.Asked.TheVariants.{Request};
ghost use Rattle.packet.specs.Asked.{asks_said};
ghost use Rattle.packet.specs.Claims.{name_right};
ghost use Rattle.packet.specs.Message.{name_said};
ghost use Rattle.incoming.specs.Event.{on_stream, offered_said};
ghost use Rattle.incoming.specs.Inner.{octets_at, AsksRight, answer_to, sender_of, sender_said};

use packet::{Asked, Name};
use reception::{Event, What};
use seats::Senders;
use seats::find::{by_ssrc, by_user};
use seats::user::has_name;
use sheet::{Refusal, Users};

// The seat of a sender, or 6.
fn seat_of(senders: Senders, ssrc: u32) -> Result<u8, Refusal>
    ensures said { sender_said result ≡ sender_of senders ssrc }
    ensures below { IfOk result (λ s. s < 8) }
{
    by_ssrc(senders, ssrc).ok_or(Refusal::Sender)
}

// A packet that is offered as an event, and what its sender and a stream's user are looked for among.
#[derive(Clone, Copy)]
pub struct Offered<'a> {
    pub senders: Senders,
    pub users: &'a Users,
    pub packet: &'a [u8],
}

impl<'a> Offered<'a> {
    // The octets of a name. (That it is right is asked in three of these methods: a type for a right name of this packet would be longer than the three lines.)
    fn octets(&self, name: Name) -> &'a [u8]
        requires { T (name_right self.now.packet.now (name_said name)) }
        ensures { result.now ≡ octets_at self.now.packet.now name }
    {
        let at = name.at as usize;
        &self.packet[at..at + name.len as usize]
    }

    // What happens on the stream of the user that a packet names, or 7 where that user has no seat.
    #[tactic(auto, unfolding(crate::specs::Event::on_stream))]
    fn on_stream(&self, name: Name, what: What) -> Result<Event, Refusal>
        requires { T (name_right self.now.packet.now (name_said name)) }
        ensures { offered_said result ≡ on_stream self.now.senders.seats self.now.users.now (octets_at self.now.packet.now name) what }
    {
        let stream = by_user(self.senders.seats, self.users, self.octets(name)).ok_or(
            Refusal::Transmitter,
        )?;
        Ok(Event { stream, what })
    }

    // A request by the sender's seat on the stream of the source, or 6, also where the User ID is not the seat's, or 7.
    #[tactic(auto, using(crate::proofs::Laws::Heard::name_spelt), unfolding(crate::specs::Event::request_by))]
    fn request(&self, ssrc: u32, user: Name, source: Name) -> Result<Event, Refusal>
        requires { T (name_right self.now.packet.now (name_said user)) × T (name_right self.now.packet.now (name_said source)) }
        ensures { offered_said result ≡ answer_to self.now.senders self.now.users.now self.now.packet.now (asks_said (Some (Request ssrc user source))) }
    {
        let seat = seat_of(self.senders, ssrc)?;
        if !has_name(&self.users[seat as usize], self.octets(user)) {
            return Err(Refusal::Sender);
        }
        self.on_stream(source, What::Request(seat))
    }

    // The event that it makes, by what it asks, or 6 or 7.
    #[tactic(auto, using(crate::proofs::Laws::Heard::name_spelt))]
    pub fn event(&self, asked: Asked) -> Result<Event, Refusal>
        requires { AsksRight self.now.packet.now (asks_said (Some asked)) }
        ensures { offered_said result ≡ answer_to self.now.senders self.now.users.now self.now.packet.now (asks_said (Some asked)) }
    {
        match asked {
            Asked::Request { ssrc, user, source } => self.request(ssrc, user, source),
            Asked::End { ssrc, transmitter } => {
                let seat = seat_of(self.senders, ssrc)?;
                self.on_stream(transmitter, What::End(seat))
            }
            Asked::EndResponse { head } => Ok(Event {
                stream: seat_of(self.senders, head.ssrc)?,
                what: What::EndResponse(head.ack),
            }),
        }
    }
}
