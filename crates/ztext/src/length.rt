//! Where a text ends.

ghost use Rattle.std.specs.Prelude.{◌≡◌, ◌+◌, ◌≤◌, length, drop, IfSome, option_map};
ghost use Rattle.std.specs.Option.{option_copied};
ghost use Rattle.ztext.specs.Words.{after_text, text_at, length_at};

// The least high byte of a word that ends a text.
const END: u8 = 0x80;

/// The length in bytes of the text at a place of memory, up to and with its end word (Z 3.2). `None` where memory
/// holds no end word from there on.
pub fn text_length(memory: &[u8], at: usize) -> Option<usize>
    ensures length { result ≡ length_at memory.now at }
    ensures after { after_text (drop at memory.now) ≡ option_map (λ size. drop (at + size) memory.now) result }
    ensures within { IfSome result (λ size. at + size ≤ length memory.now) }
{
    let mut rest = memory.get(at..)?;
    let mut size = 0;
    while let [high, _, after @ ..] = rest {
        size += 2;
        if *high >= END {
            return Some(size);
        }
        rest = after;
    }
    None
}

/// The bytes of the text at a place of memory, up to and with its end word. `None` where `text_length` is.
#[tactic(auto, using(crate::proofs::Texts::text_at_taken))]
pub(crate) fn text_bytes(memory: &[u8], at: usize) -> Option<&[u8]>
    ensures { option_copied result ≡ text_at memory.now at }
{
    let size = text_length(memory, at)?;
    Some(&memory[at..at + size])
}
