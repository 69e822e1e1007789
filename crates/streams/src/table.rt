// The event table (document 01, "Stream record"): a function for each row, in the table's order.
ghost use Rattle.std.specs.Prelude.{◌≡◌, ◌<◌};
ghost use Rattle.streams.specs.declared.What.TheVariants.{Request};
ghost use Rattle.streams.specs.Answer.{answer_said};
ghost use Rattle.streams.specs.Table.{joined, on_end, on_open, on_t11, on_end_response, on_release, change_for, change_said};
ghost use Rattle.streams.specs.Promises.{is_sender_on≡, change_of≡};

use super::stream::Rules;
use super::{Answer, Phase, Record, What, receivers, stream};
use sheet::SEATS;

// The causes, by the sources' names (documents 004 and 002).
const INSUFFICIENT_DOWNLINK_BANDWIDTH: u16 = 0;

const NO_PERMISSION_TO_RECEIVE: u16 = 1;

const NO_RECEIVING_PARTICIPANT: u16 = 8;

// What becomes of a stream's record, and the answer.
#[derive(Clone, Copy)]
pub struct Change {
    pub becomes: Record,
    pub answer: Answer,
}

fn with_answer(becomes: Record, answer: Answer) -> Change
    ensures { (result.becomes ≡ becomes) × (result.answer ≡ answer) }
{
    Change { becomes, answer }
}

impl Rules {
    // A request by a seat other than the transmitter, for a stream that is open; `granted` is the answer to one that sets the bit.
    #[tactic(auto, unfolding(crate::specs::Table::joined))]
    fn join(self, own: Record, by: u8, granted: Answer) -> Change
        requires { by < 8 }
        ensures { change_said result ≡ joined self own by (answer_said granted) }
    {
        let byte = own.receivers;
        if receivers::has(byte, by) {
            return with_answer(own, Answer::GrantedAgain);
        }
        if self.limit <= stream::count_of(own) {
            return with_answer(own, Answer::Rejected(INSUFFICIENT_DOWNLINK_BANDWIDTH));
        }
        with_answer(stream::watched(receivers::with(byte, by)), granted)
    }

    // "request by r". One by a seat that has no bit in the byte of receivers is discarded.
    #[tactic(auto, unfolding(crate::specs::Table::change_for, crate::specs::Table::rule_for, crate::specs::Table::on_request, sheet::specs::Table::most_seats))]
    fn request(self, stream: u8, own: Record, by: u8) -> Change
        ensures { change_said result ≡ change_for self stream own (Request by) }
    {
        if SEATS <= by as usize {
            return with_answer(own, Answer::Discarded);
        }
        if by == stream {
            return with_answer(own, Answer::Rejected(NO_PERMISSION_TO_RECEIVE));
        }
        match own.phase {
            Phase::Idle => self.join(own, by, Answer::GrantedFirst),
            Phase::Watched => self.join(own, by, Answer::Granted),
            Phase::Free | Phase::Ending => with_answer(
                own,
                Answer::Rejected(NO_PERMISSION_TO_RECEIVE),
            ),
        }
    }
}

// "end by r".
#[tactic(auto, unfolding(crate::specs::Table::on_end, crate::specs::Table::after_clearing))]
fn end(own: Record, by: u8) -> Change
    ensures { change_said result ≡ on_end own by }
{
    let byte = own.receivers;
    if !receivers::has(byte, by) {
        return with_answer(own, Answer::Ended);
    }
    let left = receivers::without(byte, by);
    if left == 0 {
        return with_answer(stream::idle(), Answer::EndedLast);
    }
    with_answer(stream::watched(left), Answer::Ended)
}

// "open".
#[tactic(auto, unfolding(crate::specs::Table::on_open))]
fn open(own: Record) -> Change
    ensures { change_said result ≡ on_open own }
{
    match own.phase {
        Phase::Free => with_answer(stream::idle(), Answer::Opened),
        Phase::Idle | Phase::Watched | Phase::Ending => with_answer(own, Answer::Discarded),
    }
}

// "T11 expired". On a stream that is watched again it ran out late.
#[tactic(auto, unfolding(crate::specs::Table::on_t11))]
fn t11(own: Record) -> Change
    ensures { change_said result ≡ on_t11 own }
{
    match own.phase {
        Phase::Idle => with_answer(
            stream::ending(),
            Answer::EndRequested(NO_RECEIVING_PARTICIPANT),
        ),
        Phase::Free | Phase::Watched | Phase::Ending => with_answer(own, Answer::Discarded),
    }
}

// "end response from s".
#[tactic(auto, unfolding(crate::specs::Table::on_end_response))]
fn end_response(own: Record, ack: bool) -> Change
    ensures { change_said result ≡ on_end_response own ack }
{
    match own.phase {
        Phase::Ending if ack => with_answer(stream::free(), Answer::FreedWithAck),
        Phase::Ending => with_answer(stream::free(), Answer::Freed),
        Phase::Free | Phase::Idle | Phase::Watched => with_answer(own, Answer::Discarded),
    }
}

// "release".
#[tactic(auto, unfolding(crate::specs::Table::on_release))]
fn release(own: Record) -> Change
    ensures { change_said result ≡ on_release own }
{
    match own.phase {
        Phase::Free => with_answer(own, Answer::Discarded),
        Phase::Idle => with_answer(stream::free(), Answer::ReleasedIdle),
        Phase::Watched => with_answer(stream::free(), Answer::ReleasedWatched),
        Phase::Ending => with_answer(stream::free(), Answer::ReleasedEnding),
    }
}

impl Rules {
    // Whether the seat that an event comes from, if it names one, is on the sheet.
    pub fn is_sender_on(self, what: What) -> bool
        ensures { is_sender_on≡ self what result }
    {
        match what {
            What::Request(by) | What::End(by) => self.is_on(by),
            What::Open | What::T11 | What::EndResponse(_) | What::Release => true,
        }
    }

    // What an event makes of a stream's record. A request by a seat that has no bit in the byte of receivers, and so is on no sheet, is discarded.
    #[tactic(auto, unfolding(crate::specs::Table::change_for, crate::specs::Table::rule_for))]
    pub fn change_of(self, stream: u8, own: Record, what: What) -> Change
        ensures { change_of≡ self stream own what result }
    {
        match what {
            What::Request(by) => self.request(stream, own, by),
            What::End(by) => end(own, by),
            What::Open => open(own),
            What::T11 => t11(own),
            What::EndResponse(ack) => end_response(own, ack),
            What::Release => release(own),
        }
    }
}
