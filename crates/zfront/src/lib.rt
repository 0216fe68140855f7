//! The devices of a play's front, each over other ones: text that is wrapped, bytes that are recorded or copied as they pass, lines one at a time.
#![tactic(auto)]

mod ahead;
mod aside;
mod copied;
mod cursor;
mod cutting;
mod digits;
mod drawing;
mod followed;
mod frames;
mod framing;
mod giving;
mod headed;
mod heading;
mod heading_laws;
mod keys;
mod laws;
mod lined;
mod members;
mod page;
mod page_laws;
mod paged;
mod pages;
mod pending;
mod place;
mod record;
mod recorded;
mod screen;
mod shown;
mod side;
mod sourced;
mod telling;
mod told_laws;
mod told_lines;
mod top_line;
mod turns;
mod unframed;
mod untold;
mod words;
mod wrapped;
mod wrapper;

pub use aside::Aside;
pub use copied::Copied;
pub use cursor::Cursor;
pub use followed::Followed;
pub use frames::Frames;
pub use headed::Headed;
pub use heading::Heading;
pub use heading_laws::{framed_pieces_join, frames_are_taken_out, lines_are_characters};
pub use laws::{
    failed_calls_lose_nothing, failed_flushes_lose_nothing, failed_writes_lose_nothing,
    flushed_text_is_wrapped, no_width_wraps_nothing, pieces_join, taken_pieces_join,
    text_is_wrapped, turns_are_wrapped, wrapping_is_determined,
};
pub use lined::Lined;
pub use page_laws::{shown_pieces_join, stops_are_between_pages};
pub use paged::Paged;
pub use pages::Pages;
pub use recorded::Recorded;
pub use screen::Screen;
pub use shown::{Shown, Typed};
pub use sourced::Sourced;
pub use telling::line_told;
pub use told_laws::{failed_writes_lose_no_line, flushed_lines_are_told, pieces_of_lines_join};
pub use told_lines::ToldLines;
pub use top_line::TopLine;
pub use turns::Turns;
pub use unframed::Unframed;
pub use wrapped::Wrapped;
pub use wrapper::Wrapper;
