//! Z-text: its length and its decoding.
#![tactic(auto)]

mod abbreviations;
mod characters;
mod decode;
mod ends;
mod error;
mod laws;
mod length;
mod pieces;
mod plain;
mod state;
mod typed;
mod writing;

pub use abbreviations::{TextSpan, plain_abbreviation};
pub use decode::{decode_into, judge_text};
pub use ends::TextEnds;
pub use error::TextError;
pub use laws::{reading_is_local, text_is_at_front};
pub use length::text_length;
pub use typed::encode_word;
pub use writing::output_byte;
