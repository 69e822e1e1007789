// Which event a packet makes (document 01, "Stream record").
#![tactic(auto)]

mod event;

ghost use Rattle.std.specs.Prelude.{◌≡◌, length};
ghost use Rattle.sheet.specs.Value.{sheet_in};
ghost use Rattle.incoming.specs.Event.{senders_of};
ghost use Rattle.incoming.specs.Promises.{event_of≡};

use event::Offered;
use reception::Event;
use seats::{Senders, are_valid_with};
use sheet::numbers::{LINES, NUMBER_LINES, SEATS_LINE, numbers_of};
use sheet::{Refusal, SEATS, Sheet, Users};

// What a search by SSRC looks at of a sheet's numbers.
fn senders_in(numbers: &[u32]) -> Senders
    requires { length numbers.now ≡ 19 }
    ensures { result ≡ senders_of (sheet_in numbers.now) }
{
    let mut ssrcs = [0; SEATS];
    ssrcs.copy_from_slice(&numbers[NUMBER_LINES..LINES]);
    Senders {
        seats: numbers[SEATS_LINE],
        ssrcs,
    }
}

// The event that a packet makes, or 12 line 0, 1 to 5, 8, 6 or 7, checked in that order. A sheet's numbers and the User IDs are lent.
pub fn event_lent(numbers: &[u32], users: &Users, packet: &[u8]) -> Result<Event, Refusal>
    ensures { event_of≡ (sheet_in numbers.now) users.now packet.now result }
{
    if !are_valid_with(numbers, users) {
        return Err(Refusal::Sheet(0));
    }
    let Some(asked) = packet::asked_lent(numbers, packet)? else {
        return Err(Refusal::NoEvent);
    };
    let offered = Offered {
        senders: senders_in(numbers),
        users,
        packet,
    };
    offered.event(asked)
}

// The same, sheet and User IDs by value, as document 01 hands them over; C lends the numbers. A trait over both forms would be longer than this one call.
pub fn event_of(sheet: Sheet, users: Users, packet: &[u8]) -> Result<Event, Refusal>
    ensures { event_of≡ sheet users packet.now result }
{
    event_lent(&numbers_of(sheet), &users, packet)
}
