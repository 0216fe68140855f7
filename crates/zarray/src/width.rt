//! The elements of arrays.

ghost use Rattle.std.specs.Prelude.{◌≡◌, ◌+◌, ◌≤◌, length};
ghost use Rattle.zarray.specs.Arrays.{element_at, place_of, span, value_at, with_element};

/// Byte addresses are words, so that nothing is read from here on (Z 1.2.1).
const READABLE_LENGTH: usize = 65_536;

/// What the elements of an array are (Z 15 loadw, loadb, storew, storeb).
#[derive(Clone, Copy, PartialEq, Eq)]
pub enum Width {
    /// A byte, which is read as a number up to 255.
    Byte,
    /// A word of two bytes, the high one first (Z 2.1).
    Word,
}

impl Width {
    /// How many bytes an element takes up.
    pub fn span(self) -> u8
        ensures { result ≡ span self }
    {
        match self {
            Width::Byte => 1,
            Width::Word => 2,
        }
    }

    /// The address of an element, by that of the array and its index, modulo 65,536 (Z 15 loadw, loadb, storew, storeb).
    #[inline(always)]
    pub fn place(self, array: u16, index: u16) -> u16
        ensures { result ≡ place_of self array index }
    {
        match self {
            Width::Byte => array.wrapping_add(index),
            Width::Word => array.wrapping_add(index).wrapping_add(index),
        }
    }

    /// The element at an address, all of which is in memory.
    #[inline(always)]
    pub fn value(self, memory: &[u8], address: u16) -> u16
        requires { address + span self ≤ length memory.now }
        ensures { result ≡ value_at self memory.now address }
    {
        let place = usize::from(address);
        match self {
            Width::Byte => u16::from(memory[place]),
            Width::Word => u16::from_be_bytes([memory[place], memory[place + 1]]),
        }
    }

    /// The element at an address; `None` where a byte of it can't be read: it lies behind memory, or behind 65,535.
    pub fn element(self, memory: &[u8], address: u16) -> Option<u16>
        ensures { result ≡ element_at self memory.now address }
    {
        let end = usize::from(address) + usize::from(self.span());
        if end <= memory.len().min(READABLE_LENGTH) {
            Some(self.value(memory, address))
        } else {
            None
        }
    }

    /// Gives the element at an address, all of which is in memory, a word, or the low byte of one.
    #[inline(always)]
    pub fn set(self, memory: &mut [u8], address: u16, word: u16)
        requires { address + span self ≤ length memory.old }
        ensures { memory.new ≡ with_element self address word memory.old }
    {
        let place = usize::from(address);
        let [high, low] = word.to_be_bytes();
        match self {
            Width::Byte => memory[place] = low,
            Width::Word => {
                memory[place] = high;
                memory[place + 1] = low;
            }
        }
    }
}
