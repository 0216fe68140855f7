//! Texts that use no abbreviation.

ghost use Rattle.std.specs.Prelude.{◌≡◌, ◌↔◌, [], IsTrue};
ghost use Rattle.ztext.specs.Words.{characters_in};
ghost use Rattle.ztext.specs.Codes.{abbreviations_used};
ghost use Rattle.ztext.specs.Open.{opened, open_after, open_after_word};

/// What a text has begun, as far as it matters for whether an abbreviation is used.
#[derive(Clone, Copy)]
pub(crate) enum Open {
    /// Nothing that matters: a shift to capitals doesn't.
    Letter,
    /// A shift to the marks, among which an escape begins.
    Mark,
    /// An abbreviation, without its second Z-character.
    Bank,
    /// An escape, without its two halves.
    Escape,
    /// An escape with its high half.
    EscapeHigh,
}

impl Open {
    // What is open after a Z-character that stands for itself.
    fn opened(z: u8) -> Open
        ensures { result ≡ opened z }
    {
        match z {
            1..=3 => Open::Bank,
            5 => Open::Mark,
            _ => Open::Letter,
        }
    }

    // What is open after a Z-character, and None where that completes an abbreviation.
    fn after(self, z: u8) -> Option<Open>
        ensures { result ≡ open_after self z }
    {
        match self {
            Open::Letter => Some(Open::opened(z)),
            Open::Mark if z == 6 => Some(Open::Escape),
            Open::Mark => Some(Open::opened(z)),
            Open::Bank => None,
            Open::Escape => Some(Open::EscapeHigh),
            Open::EscapeHigh => Some(Open::Letter),
        }
    }

    // What is open after the Z-characters of a word.
    fn after_word(self, word: u16) -> Option<Open>
        ensures { result ≡ open_after_word self word }
    {
        let first = self.after((word >> 10 & 0x1f) as u8)?;
        let second = first.after((word >> 5 & 0x1f) as u8)?;
        second.after((word & 0x1f) as u8)
    }
}

/// Whether the Z-characters of these words use no abbreviation. No code is made of them, and nothing is kept but what is open,
/// so that it takes a few instructions of the host for a Z-character.
pub(crate) fn is_plain(words: &[u8]) -> bool
    ensures { IsTrue result ↔ (abbreviations_used (characters_in words.now) ≡ []) }
{
    let mut begun = Open::Letter;
    let mut rest = words;
    while let [high, low, after @ ..] = rest {
        let Some(next) = begun.after_word(u16::from_be_bytes([*high, *low])) else {
            return false;
        };
        begun = next;
        rest = after;
    }
    true
}
