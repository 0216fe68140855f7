//! What a call on objects can't do.

use thiserror::Error;

/// What a call on objects can't do. It changes nothing then.
#[derive(Clone, Copy, Debug, PartialEq, Eq, Error)]
pub enum ObjectError {
    /// A number that is no object's was met in the tree.
    #[error("there is no such object")]
    AbsentObject,
    /// The object has no property of that number.
    #[error("there is no such property")]
    AbsentProperty,
    /// The property has more than two bytes of data.
    #[error("the property is longer than a word")]
    PropertyTooLong,
}
