// A stream's record (document 01, "Stream record"): made and judged here, compared by the derived `==`; `rows` alone makes one of its octets too.
ghost use Rattle.std.specs.Prelude.{◌≡◌};
ghost use Rattle.streams.specs.Record.{idle, watched, ending, good_receivers};
ghost use Rattle.streams.specs.Promises.{is_on≡, free≡, count_of≡, is_legal≡};

use super::{Phase, Record, receivers};

// What the rules of reception look at on a sheet.
#[derive(Clone, Copy)]
pub struct Rules {
    pub limit: u32,
    pub seats: u32,
}

// ---- a record for each phase

pub fn free() -> Record
    ensures { free≡ result }
{
    Record {
        phase: Phase::Free,
        receivers: 0,
    }
}

pub(crate) fn idle() -> Record
    ensures { result ≡ idle }
{
    Record {
        phase: Phase::Idle,
        receivers: 0,
    }
}

pub(crate) fn watched(byte: u8) -> Record
    ensures { result ≡ watched byte }
{
    Record {
        phase: Phase::Watched,
        receivers: byte,
    }
}

pub(crate) fn ending() -> Record
    ensures { result ≡ ending }
{
    Record {
        phase: Phase::Ending,
        receivers: 0,
    }
}

// ---- what is asked of a record

// C11, the number of seats that are watching.
#[tactic(auto, unfolding(crate::specs::Record::count))]
pub fn count_of(own: Record) -> u32
    ensures { count_of≡ own result }
{
    u8::count_ones(own.receivers)
}

// ---- what the rules say of it

impl Rules {
    // Whether a seat is on the sheet.
    pub fn is_on(self, seat: u8) -> bool
        ensures { is_on≡ self seat result }
    {
        u32::from(seat) < self.seats
    }

    // Whether its byte may be that of a watched stream.
    #[tactic(auto, unfolding(crate::specs::Record::good_receivers))]
    fn is_good(self, stream: u8, own: Record) -> bool
        ensures { result ≡ good_receivers self stream own }
    {
        let byte = own.receivers;
        byte != 0
            && !receivers::has(byte, stream)
            && receivers::are_below(byte, self.seats)
            && count_of(own) <= self.limit
    }

    // Whether a record is legal for a stream.
    #[tactic(auto, unfolding(crate::specs::Record::legal, crate::specs::Record::legal_in, crate::specs::Record::same_record))]
    pub fn is_legal(self, stream: u8, own: Record) -> bool
        ensures { is_legal≡ self stream own result }
    {
        match own.phase {
            Phase::Free | Phase::Idle | Phase::Ending => own.receivers == 0,
            Phase::Watched => self.is_good(stream, own),
        }
    }
}
