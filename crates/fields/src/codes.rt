// How the header and every field are coded (document 01, "Packet"; RFC 3550, 6.7 and 12.1).

// The fields follow the header's twelve octets.
pub const FIRST_FIELD: usize = 12;

// The packet type of APP.
pub const APP: u8 = 204;

// "An ID of 192 or more is refused (house)".
pub const ID_END: u8 = 192;
