// One stream record by its two numbers, phase and receivers.
ghost use Rattle.std.specs.Prelude.{◌≡◌};
ghost use Rattle.rows.specs.Rows.{record_by};
ghost use Rattle.rows.specs.Held.{given};
ghost use Rattle.rows.specs.Inner.{record_held};

use reception::{Phase, Record};

// The record with this phase and these receivers, if the one is a phase's number and the others fit an octet.
pub fn record_in(phase: u32, receivers: u32) -> Option<Record>
    ensures { result ≡ given (record_held phase receivers) }
{
    Some(Record {
        phase: Phase::try_from(phase).ok()?,
        receivers: u8::try_from(receivers).ok()?,
    })
}

// The record with this phase and these receivers; a number that is no phase's counts as the last one's.
pub fn record_of(phase: u8, receivers: u8) -> Record
    ensures { result ≡ record_by phase receivers }
{
    Record {
        phase: Phase::try_from(u32::from(phase)).unwrap_or(Phase::Ending),
        receivers,
    }
}
