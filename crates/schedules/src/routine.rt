// Two routines that read, work out and store, one step after another. A step is said, or a refusal.
use super::said::{self, Said};
use reception::{Answer, Attempt, Event, Record, Streams};
use sheet::{Refusal, Sheet};
use streams::stream;

// The record that a routine holds, and its attempt.
#[derive(Clone, Copy)]
pub struct Routine {
    pub seen: Record,
    pub attempt: Attempt,
}

// One of the two routines.
#[derive(Clone, Copy)]
pub enum Which {
    One,
    Other,
}

// The sheet, the eight records, and the two routines.
#[derive(Clone, Copy)]
pub struct State {
    sheet: Sheet,
    pub records: Streams,
    pub one: Routine,
    pub other: Routine,
}

// An attempt on a stream that is answered "discarded".
pub fn discarded(stream: u8, seen: Record, wanted: Record) -> Attempt {
    Attempt {
        stream,
        seen,
        wanted,
        answer: Answer::Discarded,
    }
}

impl State {
    // The state before the first step: each holds a Free record, and an attempt that changes nothing.
    pub fn first(sheet: Sheet, records: Streams) -> State {
        let free = stream::free();
        let routine = Routine {
            seen: free,
            attempt: discarded(0, free, free),
        };
        State {
            sheet,
            records,
            one: routine,
            other: routine,
        }
    }

    fn routine(&mut self, which: Which) -> &mut Routine {
        match which {
            Which::One => &mut self.one,
            Which::Other => &mut self.other,
        }
    }

    // ---- one step of a routine

    pub fn reads(&mut self, which: Which, stream: u8) -> Result<Said, Refusal> {
        let seen = reception::read(self.sheet, self.records, stream)?;
        self.routine(which).seen = seen;
        Ok(said::seen(stream, seen))
    }

    pub fn works_out(&mut self, which: Which, event: Event) -> Result<Said, Refusal> {
        let seen = self.routine(which).seen;
        let attempt = reception::work_out(self.sheet, seen, event)?;
        self.routine(which).attempt = attempt;
        Ok(said::worked_out(attempt))
    }

    pub fn stores(&mut self, which: Which) -> Result<Said, Refusal> {
        let attempt = self.routine(which).attempt;
        let stored = reception::store(self.sheet, attempt, self.records);
        self.records = stored.records;
        Ok(said::taken(attempt.stream, stored.taking?))
    }

    // ---- a step of either

    pub fn counts(&self, stream: u8) -> Result<Said, Refusal> {
        let n = reception::count(self.sheet, self.records, stream)?;
        Ok(said::counted(stream, n))
    }
}
