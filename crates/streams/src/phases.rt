// The numbers of phases (document 01, "Stream record").
ghost use Rattle.streams.specs.Promises.{number_of≡, phase_of≡};

use super::Phase;

impl From<Phase> for u8 {
    ghost from_gives = { number_of≡ };

    fn from(phase: Phase) -> u8 {
        phase as u8
    }
}

// An error is a number that is no phase's.
impl TryFrom<u32> for Phase {
    type Error = ();

    ghost try_from_gives = { phase_of≡ };

    fn try_from(number: u32) -> Result<Phase, ()> {
        match number {
            0 => Ok(Phase::Free),
            1 => Ok(Phase::Idle),
            2 => Ok(Phase::Watched),
            3 => Ok(Phase::Ending),
            _ => Err(()),
        }
    }
}
