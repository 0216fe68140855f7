//! A story, loaded.

ghost use Rattle.std.specs.Prelude.{◌≡◌, ◌+◌, ◌*◌, ◌≤◌, ◌<◌, length, OnOk, IfOk, IfErr};
ghost use Rattle.zstory.specs.Loading.{IsLoaded, with_flags_cleared};
ghost use Rattle.zstory.specs.Refusal.{IsCause, IsFlaw, IsLowest, HasNone};

use crate::bytes::word_at;
use crate::checks::check_part;
use crate::header;
use crate::identity::Identity;
use crate::load_error::LoadError;
use crate::loading::{copied, stated_part, with_flags_cleared};
use crate::objects::object_count;
use std::alloc::{AllocError, Global};
use std::marker::Model;

/// A version 3 story, loaded: its memory as play begins, and the number of its objects.
#[derive(Debug, Drop)]
pub struct Story {
    memory: Vec<u8>,
    objects: u8,
    verify_sum: u16,
    /// Where the globals begin: a word of the header, which each access to a global would read.
    globals: usize,
}

impl Model for Story {
    ghost use Rattle.std.specs.Prelude.{◌≡◌, ◌%◌, sum, drop};
    ghost use Rattle.zstory.specs.LoadedStory.{LoadedStory, IsSound};
    ghost use Rattle.zstory.specs.Objects.{IsObjectCount};
    ghost use Rattle.zstory.specs.Header.{globals as place_of_globals};

    ghost Value = { LoadedStory };

    ghost view = { λ s. record { memory = s.memory.items; objects = s.objects } };

    ghost invariant = { λ s. IsSound s.memory.items × IsObjectCount s.memory.items s.objects × (s.verify_sum ≡ sum (drop 0x40 s.memory.items) % 65536) × (s.globals ≡ place_of_globals s.memory.items) };
}

impl Story {
    ghost use Rattle.zstory.specs.Bytes.{word_at, readable_end};
    ghost use Rattle.zstory.specs.Objects.{IsObjectCount};
    ghost use Rattle.zstory.specs.Header.{version};
    ghost use Rattle.zstory.specs.Dictionary.{dictionary_end, IsOrdered};
    ghost use Rattle.zstory.specs.LoadedStory.{LoadedStory, IsSound, static_base, first_instruction, dictionary, object_table, globals, abbreviations, is_time_game, serial, identity_of, file_sum, save_checksum};

    /// Loads a story file: cuts it at its stated length and clears what an interpreter would say of itself in Flags 1.
    /// It goes over the file once and over the dictionary once.
    ///
    /// # Errors
    ///
    /// The first cause in the order of [`LoadError`] that holds of the file. Where none does, `OutOfMemory`, if memory
    /// for the story was refused.
    pub fn load(alloc: Global, file: &[u8]) -> Result<Story, LoadError>
        ensures loaded { IfOk result (IsLoaded file.now) }
        ensures only { IfOk result (λ story. (other : LoadedStory) → IsLoaded file.now other → other ≡ story) }
        ensures no_cause { OnOk result (HasNone (IsCause file.now)) }
        ensures lowest_cause { IfErr result (IsLowest (IsCause file.now)) }
    {
        let part = stated_part(file)?;
        check_part(part)?;
        Ok(Story::of_part(alloc, part)?)
    }

    /// Memory as play begins: dynamic memory, then static memory, then what lies above.
    pub fn memory(&self) -> &[u8]
        ensures value { result.now ≡ self.now.memory }
        ensures sound { IsSound self.now.memory }
        ensures counted { IsObjectCount self.now.memory self.now.objects }
    {
        self.memory.as_slice()
    }

    /// The length of memory in bytes, 64 to 131,072.
    pub fn length(&self) -> usize
        ensures value { result ≡ length self.now.memory }
        ensures least { 64 ≤ result }
        ensures greatest { result ≤ 131072 }
    {
        self.memory.len()
    }

    /// Where dynamic memory, which begins at 0, ends and static memory begins: 64 up to the length (Z 1.1).
    pub fn static_base(&self) -> usize
        ensures value { result ≡ static_base self.now }
        ensures least { 64 ≤ result }
        ensures within { result ≤ length self.now.memory }
    {
        self.word(header::STATIC_BASE)
    }

    /// How many objects there are: the greatest number up to 255 such that the entry of each object up to it lies in
    /// dynamic memory and ends before the property tables of all objects up to its own (own).
    #[tactic(auto, using(crate::proofs::Counting::entries_dynamic))]
    pub fn objects(&self) -> u8
        ensures value { result ≡ self.now.objects }
        ensures counted { IsObjectCount self.now.memory result }
        ensures dynamic { object_table self.now + 62 + 9 * result ≤ static_base self.now }
    {
        self.objects
    }

    /// What tells the story from others.
    pub fn identity(&self) -> Identity
        ensures { result ≡ identity_of self.now }
    {
        Identity {
            release: word_at(&self.memory, header::RELEASE),
            serial: self.serial(),
            checksum: word_at(&self.memory, header::CHECKSUM),
            length: self.length() as u32,
        }
    }

    /// The byte address of the first instruction, from 64 on and below the length (Z 5.5).
    pub fn first_instruction(&self) -> usize
        ensures value { result ≡ first_instruction self.now }
        ensures least { 64 ≤ result }
        ensures within { result < length self.now.memory }
    {
        self.word(header::FIRST_INSTRUCTION)
    }

    /// The byte address of the dictionary, which lies wholly in readable static memory (Z 13.1).
    pub fn dictionary(&self) -> usize
        ensures value { result ≡ dictionary self.now }
        ensures least { static_base self.now ≤ result }
        ensures within { dictionary_end self.now.memory ≤ readable_end self.now.memory }
        ensures ordered { IsOrdered self.now.memory }
    {
        self.word(header::DICTIONARY)
    }

    /// The byte address of the object table, whose 31 words of property defaults lie in dynamic memory behind the
    /// header (Z 12.1).
    pub fn object_table(&self) -> usize
        ensures value { result ≡ object_table self.now }
        ensures least { 64 ≤ result }
        ensures within { result + 62 ≤ static_base self.now }
    {
        self.word(header::OBJECT_TABLE)
    }

    /// The byte address of the 240 globals, which lie in dynamic memory behind the header (Z 6.2).
    pub fn globals(&self) -> usize
        ensures value { result ≡ globals self.now }
        ensures least { 64 ≤ result }
        ensures within { result + 480 ≤ static_base self.now }
        ensures inside { result + 480 ≤ length self.now.memory }
    {
        self.globals
    }

    /// The byte address of the abbreviations table, wherever it is (Z 3.3).
    pub fn abbreviations(&self) -> usize
        ensures value { result ≡ abbreviations self.now }
        ensures within { result < 65536 }
    {
        self.word(header::ABBREVIATIONS)
    }

    /// Whether the status line shows a time of day and not a score (Z 8.2.3).
    pub fn is_time_game(&self) -> bool
        ensures { result ≡ is_time_game self.now }
    {
        (self.memory[header::FLAGS] >> 1) & 1 == 1
    }

    /// The sum that `verify` compares with the identity's checksum: of all bytes behind the header as they stand in
    /// the file, modulo 65,536 (Z 15).
    pub fn file_sum(&self) -> u16
        ensures { result ≡ file_sum self.now }
    {
        self.verify_sum
    }

    /// What a save says of its story: the header's checksum or, where that is 0, the file's sum (own).
    pub fn save_checksum(&self) -> u16
        ensures { result ≡ save_checksum self.now }
    {
        match word_at(&self.memory, header::CHECKSUM) {
            0 => self.file_sum(),
            checksum => checksum,
        }
    }

    #[tactic(auto, using(crate::proofs::Soundness::sound_from_none))]
    fn of_part(alloc: Global, part: &[u8]) -> Result<Story, AllocError>
        requires least { 64 ≤ length part.now }
        requires greatest { length part.now ≤ 131072 }
        requires version { version part.now ≡ 3 }
        requires flawless { HasNone (IsFlaw part.now) }
        ensures memory { IfOk result (λ story. story.memory ≡ with_flags_cleared part.now) }
        ensures objects { IfOk result (λ story. IsObjectCount story.memory story.objects) }
    {
        let (memory, verify_sum) = copied(alloc, part)?;
        let memory = with_flags_cleared(memory);
        let objects = object_count(&memory);
        let globals = usize::from(word_at(&memory, header::GLOBALS));
        Ok(Story {
            memory,
            objects,
            verify_sum,
            globals,
        })
    }

    fn word(&self, place: usize) -> usize
        requires { place + 2 ≤ 64 }
        ensures value { result ≡ word_at self.now.memory place }
        ensures sound { IsSound self.now.memory }
        ensures word { result < 65536 }
    {
        usize::from(word_at(&self.memory, place))
    }

    fn serial(&self) -> [u8; 6]
        ensures { result ≡ serial self.now }
    {
        let mut serial = [0; 6];
        serial.copy_from_slice(&self.memory[header::SERIAL..header::SERIAL + 6]);
        serial
    }
}
