// The call sheet as a value (document 01, "Call sheet"): what each line may say.
#![tactic(auto)]

mod line;
pub mod number;
pub mod numbers;
mod refusals;
mod table;

ghost use Rattle.sheet.specs.Promises.{valid≡};

// The numbers of the sheet, in the order of its lines, and the SSRC of each seat; an unused one is 0.
#[derive(Clone, Copy)]
pub struct Sheet {
    pub server: u32,
    pub limit: u32,
    pub request: u32,
    pub response: u32,
    pub endrequest: u32,
    pub endresponse: u32,
    pub txend: u32,
    pub txendresponse: u32,
    pub ack: u32,
    pub resultid: u32,
    pub seats: u32,
    pub ssrcs: [u32; SEATS],
}

// The most seats that a sheet has.
pub const SEATS: usize = 8;

// The most octets of a User ID.
pub const WIDTH: usize = 60;

// The User IDs of eight seats, 60 octets each; unused octets are zero.
pub type Users = [[u8; WIDTH]; SEATS];

// Why something is refused: document 01's refusals, in the order of their numbers, from 1. That of a sheet names the first bad or missing line, or line 0
// where the sheet was handed over as a value.
#[derive(Clone, Copy, PartialEq, Eq)]
pub enum Refusal {
    Size,
    Header,
    Kind,
    Layout,
    Fields,
    Sender,
    Transmitter,
    NoEvent,
    NotLegal,
    Stale,
    NoRoom,
    Sheet(u16),
}

// Whether some sheet reads to this struct; `numbers::are_valid` says it of the numbers that C lends. A trait over both forms would be longer than this one call.
pub fn valid(sheet: Sheet) -> bool
    ensures { valid≡ sheet result }
{
    numbers::are_valid(&numbers::numbers_of(sheet))
}
