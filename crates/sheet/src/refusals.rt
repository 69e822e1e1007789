// The numbers of refusals (document 01, "Refusals").
ghost use Rattle.sheet.specs.Promises.{number≡, line≡};

use super::Refusal;

impl Refusal {
    // Document 01's number.
    pub fn number(self) -> u32
        ensures { number≡ self result }
    {
        match self {
            Refusal::Size => 1,
            Refusal::Header => 2,
            Refusal::Kind => 3,
            Refusal::Layout => 4,
            Refusal::Fields => 5,
            Refusal::Sender => 6,
            Refusal::Transmitter => 7,
            Refusal::NoEvent => 8,
            Refusal::NotLegal => 9,
            Refusal::Stale => 10,
            Refusal::NoRoom => 11,
            Refusal::Sheet(_) => 12,
        }
    }

    // "12 its line as well": the sheet's first bad or missing line, from 1; else 0.
    pub fn line(self) -> u32
        ensures { line≡ self result }
    {
        match self {
            Refusal::Sheet(line) => u32::from(line),
            _ => 0,
        }
    }
}
