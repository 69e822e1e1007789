// How the messages are coded: their letters, and the IDs of their fields (document 01, "Packet").

// The letters "MCV0", as one number.
pub const MCV0: u32 = 0x4D435630;

// The letters "MCV1".
pub const MCV1: u32 = 0x4D435631;

// The letters "MCV2".
pub const MCV2: u32 = 0x4D435632;

// "User ID (6)"; the Source ID of a receive media request has the same.
pub const USER_ID: u32 = 6;

// "Reject Cause (2)".
pub const REJECT_CAUSE: u32 = 2;

// "Source (10)".
pub const SOURCE: u32 = 10;

// "Message Type (12)".
pub const MESSAGE_TYPE: u32 = 12;

// "Indicator (13)".
pub const INDICATOR: u32 = 13;
