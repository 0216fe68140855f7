//! Finding a word in the dictionary.

ghost use Rattle.std.specs.Prelude.{◌≡◌, ◌+◌, ◌*◌, ◌≤◌, ◌<◌, ◌↔◌, ℕ, IsTrue, length};
ghost use Rattle.zstory.specs.Bytes.{AreBytes};
ghost use Rattle.zstory.specs.Dictionary.{encoded_text, entry_count, entry_length, entry_place};
ghost use Rattle.zstory.specs.LoadedStory.{IsSound};
ghost use Rattle.zdict.specs.Lookup.{lookup, text_of};

use byteorder::{BigEndian, ByteOrder};
use zstory::Story;

/// The entries of the dictionary of a story.
#[derive(Clone, Copy)]
struct Entries<'a> {
    memory: &'a [u8],
    first: usize,
    length: usize,
    count: usize,
    ghost sound: { IsSound memory.now },
    ghost first_place: { first ≡ entry_place memory.now 0 },
    ghost one_length: { length ≡ entry_length memory.now },
    ghost all_counted: { count ≡ entry_count memory.now },
}

impl<'a> Entries<'a> {
    /// They stand behind the separators, with their count and the length of each, a byte and a word (Z 13.2).
    fn of(story: &'a Story) -> Entries<'a>
        ensures { result.memory.now ≡ story.now.memory }
    {
        let memory = story.memory();
        let place = story.dictionary();
        let separators = usize::from(memory[place]);
        Entries {
            memory,
            first: place + 4 + separators,
            length: usize::from(memory[place + 1 + separators]),
            count: usize::from(BigEndian::read_u16(&memory[place + 2 + separators..])),
        }
    }

    /// Where an entry begins.
    fn place(&self, entry: usize) -> usize
        requires { entry < self.now.count }
        ensures value { result ≡ entry_place self.now.memory.now entry }
        ensures inside { result + 4 ≤ length self.now.memory.now }
        ensures word { result < 65536 }
    {
        self.first + entry * self.length
    }

    /// The encoded text of an entry, as a number (Z 13.3).
    fn encoded_text(&self, entry: usize) -> u32
        requires { entry < self.now.count }
        ensures { result ≡ encoded_text self.now.memory.now entry }
    {
        BigEndian::read_u32(&self.memory[self.place(entry)..])
    }

    /// The first entry whose text isn't below one, or the count where each is: by halves, since they are in order (Z 13.5).
    fn first_from(&self, text: u32) -> usize
        ensures within { result ≤ self.now.count }
        ensures below { (entry : ℕ) → entry < result → encoded_text self.now.memory.now entry < text }
        ensures above { (entry : ℕ) → result ≤ entry → entry < self.now.count → text ≤ encoded_text self.now.memory.now entry }
    {
        let mut low = 0;
        let mut high = self.count;
        while low < high {
            let middle = low + (high - low) / 2;
            if self.encoded_text(middle) < text {
                low = middle + 1;
            } else {
                high = middle;
            }
        }
        low
    }

    /// Whether there is such an entry and it has the text.
    fn has_text(&self, entry: usize, text: u32) -> bool
        ensures listed { IsTrue result → entry < self.now.count }
        ensures same { entry < self.now.count → (IsTrue result ↔ (encoded_text self.now.memory.now entry ≡ text)) }
    {
        entry < self.count && self.encoded_text(entry) == text
    }
}

/// The bytes of a word, as a number.
fn text_of(word: [u8; 4]) -> u32
    ensures value { result ≡ text_of word }
    ensures bytes { AreBytes word }
{
    u32::from_be_bytes(word)
}

/// The byte address of the first entry of the dictionary whose encoded text is a word, and 0 where none is (Z 13.3, 13.5).
/// It reads about as many entries as their count has bits.
pub fn lookup(story: &Story, word: [u8; 4]) -> u16
    ensures { result ≡ lookup story.now.memory word }
{
    let entries = Entries::of(story);
    let text = text_of(word);
    let entry = entries.first_from(text);
    if entries.has_text(entry, text) {
        entries.place(entry) as u16
    } else {
        0
    }
}
