// A stream's record and the event table (document 01, "Stream record"): records made, judged and compared, and what an event makes of one.
#![tactic(auto)]

mod phases;
mod receivers;
pub mod stream;
pub mod table;

// Where a stream stands.
#[derive(Clone, Copy, PartialEq, Eq)]
pub enum Phase {
    Free,
    Idle,
    Watched,
    Ending,
}

// A stream's record: its phase, and a byte with bit r for seat r, which is watching.
#[derive(Clone, Copy, PartialEq, Eq)]
pub struct Record {
    pub phase: Phase,
    pub receivers: u8,
}

// An event on a stream.
#[derive(Clone, Copy)]
pub struct Event {
    pub stream: u8,
    pub what: What,
}

// What happens: a seat's request or end, an opening, T11 expired, the transmitter's end response, which may ask for an Ack, a release.
#[derive(Clone, Copy)]
pub enum What {
    Request(u8),
    End(u8),
    Open,
    T11,
    EndResponse(bool),
    Release,
}

// What an event is answered with. Answers that differ in a timer differ; what each sends, stops and starts: `specs/Answer.antt`.
#[derive(Clone, Copy)]
pub enum Answer {
    GrantedFirst,
    Granted,
    GrantedAgain,
    Rejected(u16),
    Ended,
    EndedLast,
    Opened,
    EndRequested(u16),
    Freed,
    FreedWithAck,
    ReleasedIdle,
    ReleasedWatched,
    ReleasedEnding,
    Discarded,
}
