//! Objects: attributes, the tree and properties, as they stand in a memory.
#![tactic(auto)]

mod answers;
mod attributes;
mod entry;
mod error;
mod laws;
mod moves;
mod name;
mod property;
mod tree;
mod values;

pub use answers::{PropertyQuestion, answer_of};
pub use attributes::{clear_attribute, has_attribute, set_attribute};
pub use error::ObjectError;
pub use laws::{
    answers_are_words, attributes_are_a_set, bytes_stay_bytes, links_are_functions, lists_go_on,
    moves_keep_the_tree, objects_have_entries, parts_stay_apart, values_stay_in_their_data,
};
pub use moves::{Lead, insert, lead_of, lead_past, put_first, unlink};
pub use name::{ShortName, short_name};
pub use property::{Property, find_property, list_place, next_number, property_at};
pub use tree::{Link, linked, set_link};
pub use values::{data_length_before, default_word, property_value, put_property};
