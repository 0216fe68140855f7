//! Whose code a place is.

ghost use Rattle.std.specs.Prelude.{◌≡◌, ◌↔◌, IsTrue};
ghost use Rattle.zlist.specs.Labels.{joined};

/// Whose code an instruction is (own).
#[derive(Clone, Copy)]
pub enum Owner {
    /// The code that play begins with.
    Main,
    /// The routine at the address.
    Routine(u32),
}

/// Whose code a place was found to be so far.
#[derive(Clone, Copy)]
pub(crate) enum Label {
    /// Nothing leads there.
    Nobody,
    /// That of one owner.
    One(Owner),
    /// That of two or more.
    Several,
}

impl Owner {
    /// Whether it is another's too.
    fn is(self, other: Owner) -> bool
        ensures { IsTrue result ↔ (self ≡ other) }
    {
        match (self, other) {
            (Owner::Main, Owner::Main) => true,
            (Owner::Routine(one), Owner::Routine(two)) => one == two,
            _ => false,
        }
    }
}

impl Label {
    /// Whether it tells the same as another.
    pub(crate) fn is(self, other: Label) -> bool
        ensures { IsTrue result ↔ (self ≡ other) }
    {
        match (self, other) {
            (Label::Nobody, Label::Nobody) | (Label::Several, Label::Several) => true,
            (Label::One(one), Label::One(two)) => one.is(two),
            _ => false,
        }
    }

    /// Whose code a place is that both are told of.
    pub(crate) fn joined(self, other: Label) -> Label
        ensures { result ≡ joined self other }
    {
        match (self, other) {
            (Label::Nobody, label) | (label, Label::Nobody) => label,
            (Label::One(one), Label::One(two)) if one.is(two) => self,
            _ => Label::Several,
        }
    }
}
