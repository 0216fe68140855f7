//! The versions that a kind of sets has.

ghost use Rattle.std.specs.Prelude.{◌≡◌};
ghost use Rattle.zcert.specs.Editions as spec;
ghost use Rattle.zcert.specs.Building.{limit_before};

/// What the certificates of a version have beside what all have.
#[derive(Clone, Copy, Debug, PartialEq, Eq)]
pub enum Edition {
    /// Nothing: versions 1 and 2.
    Plain,
    /// A limit of frames: version 3.
    Limited,
    /// A limit of frames, and instructions that may be marked: version 4.
    Marking,
    /// These, and facts on globals: version 5.
    Stating,
}

impl Edition {
    /// That of certificates that name such a limit, or none, may mark instructions, or not, and may state facts, or not.
    pub(crate) fn by(limit: Option<u16>, marking: bool, stating: bool) -> Edition
        ensures { result ≡ spec.edition_by limit marking stating }
    {
        match limit {
            None => Edition::Plain,
            Some(_) if marking && stating => Edition::Stating,
            Some(_) if marking => Edition::Marking,
            Some(_) => Edition::Limited,
        }
    }

    /// A limit that is to be named, or none.
    pub(crate) fn limit(self) -> Option<u16>
        ensures { result ≡ limit_before (spec.is_limited self) }
    {
        match self {
            Edition::Plain => None,
            Edition::Limited | Edition::Marking | Edition::Stating => Some(0),
        }
    }

    /// Whether instructions may be marked.
    pub(crate) fn is_marking(self) -> bool
        ensures { result ≡ spec.is_marking self }
    {
        matches!(self, Edition::Marking | Edition::Stating)
    }

    /// Whether facts on globals may be stated.
    pub(crate) fn is_stating(self) -> bool
        ensures { result ≡ spec.is_stating self }
    {
        matches!(self, Edition::Stating)
    }
}
