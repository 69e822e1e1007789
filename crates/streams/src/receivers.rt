// The byte of receivers, bit r for seat r (document 01, "Stream record").
ghost use Rattle.std.specs.Prelude.{◌≡◌, ◌^◌, ◌<◌, ltb};
ghost use Rattle.streams.specs.Record.{watches, set_bit, clear_bit};

// Whether a seat is watching. A seat past the eighth has no bit.
pub fn has(byte: u8, seat: u8) -> bool
    ensures { result ≡ watches byte seat }
{
    byte.checked_shr(seat as u32).unwrap_or(0) % 2 == 1
}

// Whether none but the first `seats` seats are watching.
pub fn are_below(byte: u8, seats: u32) -> bool
    ensures { result ≡ ltb byte (2 ^ seats) }
{
    byte.checked_shr(seats).unwrap_or(0) == 0
}

// The byte with a seat's bit. (A seat is below 8: a type for that would be made anew of each event's octet.)
pub fn with(byte: u8, seat: u8) -> u8
    requires { seat < 8 }
    ensures { result ≡ set_bit byte seat }
{
    byte | 1 << seat
}

// The byte without a seat's bit.
pub fn without(byte: u8, seat: u8) -> u8
    requires { seat < 8 }
    ensures { result ≡ clear_bit byte seat }
{
    byte & !(1 << seat)
}
