// Which rows of numbers stand for a message that some packet reads to, its names left out (document 01, "Packet", and refusal 5).
ghost use Rattle.std.specs.Prelude.{◌≡◌, ◌&&◌, length, get_or, eqb, ltb};
ghost use Rattle.kinds.specs.Found.{kind_number};
ghost use Rattle.plan.specs.Inner.{kind_with_number, span_for, stands_at, is_message_row, indicator_fits, cause_fits, numbers_fit};

use kinds::Kind;
use packet::row::{ABOUT, ACK, CAUSE, INDICATOR, NAMED, NONE, NUMBERS, RESULT, SOURCE, USER};

// A row of numbers, and the kind that it names.
#[derive(Clone, Copy)]
pub struct Row<'a> {
    pub kind: Kind,
    pub message: &'a [u32; NUMBERS],
    pub ghost counted: { length message.now ≡ 12 },
    pub ghost names_kind: { get_or message.now 0 0 ≡ kind_number kind },
}

// A number of 8 bits is less, and one of 16.
const OCTET_END: u32 = 256;

const PAIR_END: u32 = 65536;

// The kind with this number in document 01's table. (An Option and no `TryFrom`: of a number that is no kind's there is nothing to say.)
#[tactic(auto, using(crate::proofs::Laws::Rows::no_kind), unfolding(crate::specs::Inner::kind_with_number))]
pub fn kind_of(number: u32) -> Option<Kind>
    ensures { result ≡ kind_with_number number }
{
    match number {
        1 => Some(Kind::ReceiveRequest),
        2 => Some(Kind::ReceiveResponse),
        3 => Some(Kind::EndRequest),
        4 => Some(Kind::EndResponse),
        5 => Some(Kind::TransmissionEnd),
        6 => Some(Kind::TransmissionEndResponse),
        7 => Some(Kind::Ack),
        _ => None,
    }
}

// ---- nothing stands where the kind has nothing

// Where the names of a kind begin, which end where the numbers begin, and where its numbers begin and end.
#[derive(Clone, Copy)]
struct Span {
    names: usize,
    from: usize,
    end: usize,
}

#[tactic(auto, unfolding(crate::specs::Inner::span_for))]
fn span_of(kind: Kind) -> Span
    ensures { result ≡ span_for (kind_number kind) }
{
    let (names, from, end) = match kind {
        Kind::ReceiveRequest => (USER, INDICATOR, SOURCE),
        Kind::ReceiveResponse => (RESULT, RESULT, SOURCE),
        Kind::EndRequest => (NAMED, INDICATOR, SOURCE),
        Kind::EndResponse => (NAMED, NUMBERS, NUMBERS),
        Kind::TransmissionEnd => (RESULT, CAUSE, SOURCE),
        Kind::TransmissionEndResponse => (RESULT, NUMBERS, NUMBERS),
        Kind::Ack => (RESULT, SOURCE, NUMBERS),
    };
    Span { names, from, end }
}

// Whether a number may stand at this place of a row: 0 or 1 for the Ack, and where the kind has nothing, what the reader puts there.
#[tactic(auto, using(crate::proofs::Laws::Rows::flags), unfolding(crate::specs::Inner::stands_at))]
fn may_stand(span: Span, i: usize, number: u32) -> bool
    ensures { result ≡ stands_at span i number }
{
    if i == ACK {
        return number < 2;
    }
    if i < RESULT {
        return (span.names <= i) | (number == 0);
    }
    ((span.from <= i) & (i < span.end)) | (number == NONE)
}

// Whether a row is some message's, with nothing where its kind has nothing. (With the span in a variable, measured, a call takes more instructions.)
fn is_row(row: Row) -> bool
    ensures { result ≡ is_message_row row.entry.message.now }
{
    let message = row.message;
    for i in ACK..NUMBERS {
        if !may_stand(span_of(row.kind), i, message[i]) {
            return false;
        }
    }
    true
}

// ---- its numbers fit

// Whether a number is that of no Indicator, or one of 16 bits.
#[tactic(auto, unfolding(crate::specs::Inner::indicator_fits))]
fn is_indicator(number: u32) -> bool
    ensures { result ≡ indicator_fits number }
{
    if number == NONE {
        return true;
    }
    number < PAIR_END
}

// Result 1 and no cause, or Result 0 and a cause of 16 bits.
#[tactic(auto, unfolding(crate::specs::Inner::cause_fits))]
fn is_verdict(res: u32, cause: u32) -> bool
    ensures { result ≡ (ltb res 2 && cause_fits (eqb res 1) cause) }
{
    if res == 1 {
        return cause == NONE;
    }
    if res != 0 {
        return false;
    }
    cause < PAIR_END
}

// Whether the numbers of a row are as wide as its kind's fields.
#[tactic(auto, using(crate::proofs::Laws::Rows::fits))]
fn fits(row: Row) -> bool
    ensures { result ≡ numbers_fit row.entry.message.now }
{
    let message = row.message;
    let narrow = is_indicator(message[INDICATOR]);
    match row.kind {
        Kind::ReceiveRequest | Kind::EndRequest => narrow,
        Kind::ReceiveResponse => is_verdict(message[RESULT], message[CAUSE]) & narrow,
        Kind::EndResponse | Kind::TransmissionEndResponse => true,
        Kind::TransmissionEnd => (message[CAUSE] < PAIR_END) & narrow,
        Kind::Ack => (message[SOURCE] < PAIR_END) & (message[ABOUT] < OCTET_END),
    }
}

// Whether a row stands for a message whose numbers fit.
pub fn stands(row: Row) -> bool
    ensures { result ≡ (is_message_row row.entry.message.now && numbers_fit row.entry.message.now) }
{
    is_row(row) && fits(row)
}
