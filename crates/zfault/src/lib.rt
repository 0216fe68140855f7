//! What machines, players and devices say to one another: faults, pauses, events, items of output, and devices
//! that count their failures.
#![tactic(auto)]

mod adapters;
mod devices;
mod event;
mod fault;
mod item;
mod items;
mod line;
mod pause;
mod writing;

pub use adapters::{FromRead, ToWrite};
pub use devices::{Failed, Sink, Source};
pub use event::Event;
pub use fault::Fault;
pub use item::{Item, Name, Status};
pub use items::{Items, Mark};
pub use line::{LINE_LIMIT, Line};
pub use pause::{Need, Pause};
pub use writing::write_whole;
