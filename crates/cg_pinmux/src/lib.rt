//! Which port of an instance goes to which pin (OpenTitan Top Generation Tool, pinmux and pinout).
//!
//! `pins` takes a top that is joined with its blocks and gives each bit of a `muxed` signal its numbers: an input the next of `mio_in`, an
//! output the next of `mio_out`, a port that is both the next of each, in the order of the signals, then of the ports, then of the bits.
//! A `direct` signal ties one bit to a pad, and a `manual` one is not joined by the top. Which bits a signal has is said bit by bit,
//! apart from the order. The answer is the first signal that names nothing, or that may not stand beside the earlier ones, where
//! there is one, exactly.
//!
//! A pad that is written at a signal that is not `direct` is read past. Not promised: that memory is found.
#![tactic(auto)]

mod check;
mod laws;
mod map;
mod names;
mod numbered;
mod pinning;
mod region;
mod resolved;

pub use laws::{
    bits_of_pads_have_no_number, each_bit_has_one_number, each_pad_has_one_bit, pins_are_one,
};
pub use map::{PadTie, PinMap};
pub use pinning::pins;
