//! Certificates: what they say, and the bytes that they are written in.
#![tactic(auto)]

mod builder;
mod building;
mod certificate;
mod coming;
mod contents;
mod edition;
mod error;
mod facts;
mod field;
mod instructions;
mod interval_spelled;
mod laws;
mod limits;
mod making;
mod marks;
mod next;
mod parts;
mod reader;
mod reading;
mod spelled;
mod stage;
mod steps;
mod stream;
mod turns;
mod values_spelled;
mod writing;

pub use builder::CertBuilder;
pub use certificate::Certificate;
pub use edition::Edition;
pub use error::CertError;
pub use field::{Field, Header, Turn};
pub use laws::{builders_refuse_as_readers, fields_make_certificates, spellings_are_read};
pub use limits::{
    FACT_VERSION, LIMIT_VERSION, LIST_VERSION, MARK, MARK_VERSION, MAX_FRAMES, USUAL_FRAMES,
};
pub use parts::{Fact, Instruction, Range, Routine};
pub use reading::read;
pub use spelled::Spelled;
pub use stage::Stage;
pub use stream::CertStream;
pub use writing::write;
