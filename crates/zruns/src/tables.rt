//! The tables of a story by which a checker answers questions about many objects and many addresses.

use crate::room::Room;
use crate::runs::Runs;
use crate::texts::Texts;
use std::marker::Model;
use zcert::Range;
use zdomain::Domain;
use zpairs::Properties;
use zstory::Story;

/// What is known of a story's properties, of runs of its addresses, and of its texts.
#[derive(Drop)]
pub struct Tables<'a> {
    runs: Runs<'a>,
    texts: Texts<'a>,
    /// The short name of each object is empty, or a text that no play changes.
    names_fixed: bool,
}

impl<'a> Model for Tables<'a> {
    ghost use Rattle.zpairs.specs.Frozen.{FrozenStory};
    ghost use Rattle.std.specs.Prelude.{◌≡◌};

    ghost Value = { FrozenStory };

    ghost view = { λ p. p.runs };

    ghost use Rattle.std.specs.Prelude.{IsTrue};
    ghost use Rattle.zpairs.specs.Frozen.{frozen_by};
    ghost use Rattle.zruns.specs.Names.{EachObject, HasFixedName};

    ghost invariant = { λ p. (p.texts ≡ p.runs) × (IsTrue p.names_fixed → EachObject p.runs.story (HasFixedName p.runs.story (frozen_by p.runs.ranges))) };
}

impl<'a> Tables<'a> {
    ghost use Rattle.std.specs.Prelude.{◌≡◌, ◌↔◌, IsTrue};
    ghost use Rattle.zpairs.specs.Frozen.{frozen_by};
    ghost use Rattle.zruns.specs.Names.{AreFixedNames};

    /// Those of a story, of which the bytes in some ranges stay as they are, in a room. Each of its own tables is gone over once, each place of
    /// each range, and each place of memory.
    pub fn new(story: &'a Story, ranges: &'a [Range], room: &'a mut Room) -> Tables<'a>
        ensures { result ≡ record { story = story.now; ranges = ranges.now } }
    {
        let properties = Properties::new(story, ranges, &mut room.properties);
        let texts = Texts::new(story, ranges, properties.marked(), &mut room.texts);
        Tables {
            names_fixed: texts.are_names_fixed(),
            texts,
            runs: Runs::new(properties, &mut room.runs),
        }
    }

    /// The properties of the story's objects.
    pub fn properties(&self) -> &Properties<'a>
        ensures { result.now ≡ self.now }
    {
        self.runs.properties()
    }

    /// The runs of its addresses.
    pub fn runs(&self) -> &Runs<'a>
        ensures { result.now ≡ self.now }
    {
        &self.runs
    }

    /// The texts that no play changes.
    pub fn texts(&self) -> &Texts<'a>
        ensures { result.now ≡ self.now }
    {
        &self.texts
    }

    /// Whether the short name of each object of a set is empty, or a text that no play changes, if the story has the object. It is one
    /// test where that is so of all objects, and else goes over them.
    pub fn are_names_fixed<V: Domain>(&self, objects: V) -> bool
        ensures { IsTrue result ↔ AreFixedNames V.operations self.now.story (frozen_by self.now.ranges) objects }
    {
        self.names_fixed || self.texts().are_named_fixed(objects)
    }

    /// The story.
    pub fn story(&self) -> &'a Story
        ensures { result.now ≡ self.now.story }
    {
        self.properties().story()
    }
}
