// The fields of RTCP APP packets of MCVideo (document 01, "Packet"; RFC 3550, 6.7): checks 1 and 2, the walk over the fields, and the field at
// a place.
#![tactic(auto)]

pub mod codes;
pub mod field;
pub mod header;
pub mod walk;
