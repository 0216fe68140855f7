//! Lines of the player: they are asked for, and stored (Z 15 sread).

ghost use Rattle.std.specs.Prelude.{◌≡◌, ◌≤◌, ◌++◌, ◌∷◌, [], None, Some, true, false, IsTrue, IsFalse, IfOk, IfErr, length, ℕ, List};
ghost use Rattle.zfault.specs.declared.event.Event.TheVariants as events;
ghost use Rattle.zfault.specs.declared.item.Item.TheVariants.{Status as ALine};
ghost use Rattle.zline.specs.Storing.{HasBuffers, with_line};
ghost use Rattle.zstate.specs.State.{fault};
ghost use Rattle.zstate.specs.Step.{buffered, line_of};
ghost use Rattle.zstory.specs.LoadedStory.{LoadedStory, static_base};
ghost use Rattle.zengine.specs.Outer.{IsLineless};
ghost use Rattle.zengine.specs.View.{body_of};

use crate::board::Board;
use crate::status::line_of;
use crate::writing::are_writable;
use zfault::{Event, Fault, Items};
use zline::store_line;
use zstory::Story;

/// What is asked of a text and a parse buffer (own): their sizes can be read, there is room for a letter and for what is said of a word,
/// and all that they take may be written.
#[tactic(auto, unfolding(zstate::specs::Step::buffered))]
pub(crate) fn judge(memory: &[u8], text: u16, parse: u16, fixed: usize) -> Result<(), Fault>
    requires header { 64 ≤ fixed }
    requires within { fixed ≤ length memory.now }
    ensures ok { (story : LoadedStory) → fixed ≡ static_base story → IfOk result (λ u. buffered story text parse memory.now ≡ Ok u) }
    ensures err { (story : LoadedStory) → fixed ≡ static_base story → IfErr result (λ f. buffered story text parse memory.now ≡ fault f) }
    ensures inside { IfOk result (λ _. HasBuffers memory.now text parse) }
{
    let (text, parse) = (usize::from(text), usize::from(parse));
    if text >= memory.len() || parse >= memory.len() {
        return Err(Fault::ReadOutside);
    }
    let (size, limit) = (u16::from(memory[text]), u16::from(memory[parse]));
    if size < 2 || limit < 1 {
        return Err(Fault::SmallBuffer);
    }
    if !are_writable(text + 1, size, fixed) || !are_writable(parse + 1, 1 + 4 * limit, fixed) {
        return Err(Fault::WriteOutside);
    }
    Ok(())
}

/// Gives a status line with a name out. Want of memory is the only thing that can keep it from that.
pub(crate) fn give_line(story: &Story, memory: &[u8], name: &Vec<u8>, items: &mut Items) -> bool
    requires { length memory.now ≡ length story.now.memory }
    ensures given { IsTrue result → items.new.items ≡ items.old.items ++ ALine (line_of story.now memory.now name.now.items) ∷ [] }
    ensures kept { IsFalse result → items.new.items ≡ items.old.items }
{
    match line_of(story, memory, name) {
        Ok(status) => match items.give_status(status) {
            Ok(()) => true,
            Err(_) => false,
        },
        Err(_) => false,
    }
}

impl Board {
    /// Shows that a line is wanted.
    pub(crate) fn prompt(&mut self)
        ensures body { body_of self.new ≡ record (body_of self.old) { outside = record self.old.outside.value { prompted = true } } }
        ensures at { self.new.at ≡ self.old.at }
    {
        self.outside.prompted = true;
    }

    /// Stores the line that waits in the buffers at two places, and uses it up; or tells that none waits.
    pub(crate) fn hear(&mut self, story: &Story, text: u16, parse: u16) -> bool
        requires { HasBuffers self.old.memory.items text parse }
        ensures heard { IsTrue result → (line : List ℕ) × (self.old.outside.value.waiting ≡ Some (events.Line line)) × (body_of self.new ≡ record (body_of self.old) { memory = with_line story.now.memory text parse line self.old.memory.items; outside = record self.old.outside.value { waiting = None; prompted = false } }) }
        ensures unheard { IsFalse result → IsLineless self.old.outside.value.waiting × (body_of self.new ≡ body_of self.old) }
        ensures size { length self.new.memory.items ≡ length self.old.memory.items }
        ensures at { self.new.at ≡ self.old.at }
    {
        match self.outside.waiting {
            Some(Event::Line(line)) => {
                store_line(
                    story,
                    &mut self.memory,
                    usize::from(text),
                    usize::from(parse),
                    line.as_slice(),
                );
                self.outside.waiting = None;
                self.outside.prompted = false;
                true
            }
            _ => false,
        }
    }
}
