//! What of a story's text is seen.

ghost use Rattle.std.specs.Prelude.{◌≡◌, false, true};
ghost use Rattle.zlenient.specs.Front.{is_seen, opened, streamed, turned_by};
ghost use Rattle.zstate.specs.Step.{arg};

use zcode::Excluded;

/// The operand that closes the screen's stream, -1 as a word.
const CLOSES: u16 = 65_535;

/// What is shown of what a story gives out, of which a stream of text has the lower window alone (Z 7.1.2, 8.6).
#[derive(Clone, Copy, Debug, PartialEq, Eq)]
pub struct Front {
    /// Whether the screen's stream is open.
    pub shown: bool,
    /// The window that is selected: 0 is the lower one.
    pub window: u16,
}

/// An operand's value; a missing one is 0.
pub(crate) fn arg(words: &[u16], number: usize) -> u16
    ensures { result ≡ arg words.now number }
{
    match words.get(number) {
        Some(word) => *word,
        None => 0,
    }
}

impl Front {
    /// As a story opens: the screen's stream is open, and the lower window is selected.
    pub fn opened() -> Front
        ensures { result ≡ opened }
    {
        Front {
            shown: true,
            window: 0,
        }
    }

    /// Whether what is given out is seen.
    pub fn is_seen(self) -> bool
        ensures { result ≡ is_seen self }
    {
        self.shown && self.window == 0
    }

    /// After `output_stream`: 1 opens the screen's stream, and -1 closes it.
    fn streamed(self, stream: u16) -> Front
        ensures { result ≡ streamed stream self }
    {
        match stream {
            1 => Front {
                shown: true,
                ..self
            },
            CLOSES => Front {
                shown: false,
                ..self
            },
            _ => self,
        }
    }

    /// After an opcode that is passed over, by the values of its operands.
    pub(crate) fn turned_by(self, opcode: Excluded, words: &[u16]) -> Front
        ensures { result ≡ turned_by opcode words.now self }
    {
        match opcode {
            Excluded::SetWindow => Front {
                window: arg(words, 0),
                ..self
            },
            Excluded::OutputStream => self.streamed(arg(words, 0)),
            Excluded::SplitWindow | Excluded::InputStream | Excluded::SoundEffect => self,
        }
    }
}
