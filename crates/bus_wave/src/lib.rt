//! The wave of a capture: its levels, words and messages as a value change dump (VCD) that waveform viewers draw.
//!
//! `specs/Waves.antt` says what stands at each tick, over the bursts, slots and messages that a monitor lists, and `specs/Texts.antt` how it is written.
//! A message's name stands at its first tick and is known at its end, so the wave is drawn 1,536 ticks behind the capture that is read, from a delay line
//! of fixed size. Proved: what was written is the wave of the ticks that were read, whatever the pieces that the input came in; and the levels in it give
//! these ticks again.
#![tactic(auto)]

pub mod delay_line;
pub mod drawer;
pub mod dump_text;
pub mod laws;
pub mod levels;
pub mod line_marks;
pub mod marking;
pub mod marks;
pub mod message_marks;
pub mod message_names;
pub mod stamp;
#[cfg(test)]
mod tests;
pub mod text;
pub mod tool;
pub mod unmarked;
pub mod wave_lister;
pub mod wave_writer;
pub mod writing;

pub use tool::wave_tool;
pub use writing::write_wave;
