//! Numbers written in digits. It knows decimal numbers without leading zeros, decimal digits with
//! them, and hexadecimal digits, as a whole text or at the front of one. Each reader is exact: it
//! answers the one number that the text writes, and None where the text writes none of its range.
//! What a number means, and what stands behind it, is left to the caller.

mod front;
mod hex;
mod reading;

pub use front::decimal_front;
pub use hex::{eight_digits_front, hex_digits_in};
pub use reading::{decimal_in, digits_in};
