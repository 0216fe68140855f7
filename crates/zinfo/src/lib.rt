//! What a story says of itself, and what it has: for people as lines, and for programs as an object of JSON.
#![tactic(auto)]

mod asking;
mod beside;
mod counting;
mod facts;
mod laws;
mod object;
mod shown;
mod standing;
mod text;
mod walk;

pub use asking::{heading, info};
pub use beside::text_of_beside;
pub use counting::unplayed;
pub use facts::{Beside, Checksum, Code, Heading, Info, Kept, Unplayed};
pub use laws::shown_bytes_are_told_apart;
pub use object::object_of_info;
pub use shown::{five_digits, shown_text};
pub use text::{fault_code, push_address, push_place, text_of_info};
