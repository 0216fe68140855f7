//! Which tests steps make.

ghost use Rattle.std.specs.Prelude.{Bool, true, false};

/// Which tests steps make.
pub trait Guard: Drop {
    /// Whether they are those of the machine's definition.
    ghost TESTS: { Bool };

    /// Whether they are those of the machine's definition; else there are none.
    const TESTS: bool;
}

/// Each step is tested before it acts, and so meets a named fault where another would go wrong.
#[derive(Drop)]
pub struct Tested;

impl Guard for Tested {
    ghost TESTS = { true };

    const TESTS: bool = true;
}

/// No test is made for a fault, since none can come.
#[derive(Drop)]
pub struct Untested;

impl Guard for Untested {
    ghost TESTS = { false };

    const TESTS: bool = false;
}
