//! What may be answered of objects and numbers of two sets.

ghost use Rattle.std.specs.Prelude.{◌≡◌};
ghost use Rattle.zpairs.specs.Pairs.{hull, is_asked, may_exceed, may_have};

use crate::blocks::BLOCK_LENGTH;
use crate::columns::{NUMBERS, add_columns, column};
use crate::ends::Ends;
use crate::finding::answer_ends;
use crate::marked::Marked;
use crate::properties::Properties;
use crate::told::members;
use zdomain::{Domain, Gathered, turned};
use zobj::PropertyQuestion;

impl<'a> Properties<'a> {
    ghost use Rattle.std.specs.Prelude.{◌≡◌, ◌≤◌, ◌<◌, ◌+◌, IsTrue, nat_lt, if◌then◌else◌, map};
    ghost use Rattle.std.specs.List.{list_all};
    ghost use Rattle.zdomain.specs.Few.{with_words};
    ghost use Rattle.zpairs.specs.Members.{members};
    ghost use Rattle.zpairs.specs.Blocks.{block_ends, row_end};
    ghost use Rattle.zpairs.specs.Ends.{no_word};
    ghost use Rattle.zpairs.specs.Pairs.{all_ends, between_ends, column_words, columns, ends_below, ends_of, is_exact, known_answers, number_ends, object_ends, pair_ends, pairs, row, told_words, word_of, words_if};
    ghost use Rattle.zpairs.specs.Frozen.{told_by};

    /// Values, or addresses: the words themselves, where they are told, and else those from the least to the greatest of two hulls, by their
    /// signed readings.
    pub(crate) fn known_answers<V: Domain>(
        &self,
        question: PropertyQuestion,
        objects: V,
        numbers: V,
    ) -> V
        ensures { result ≡ known_answers V.operations self.now question objects numbers }
    {
        match self.told_answers(question, objects, numbers) {
            Some(words) => words,
            None => self.hull_answers(question, hull(objects), hull(numbers)),
        }
    }

    /// The words from the least to the greatest.
    fn hull_answers<V: Domain>(&self, question: PropertyQuestion, objects: V, numbers: V) -> V
        ensures { result ≡ between_ends V.operations (all_ends V.operations self.now question objects numbers) }
    {
        let ends = self.all_ends(question, objects, numbers);
        V::between(turned(ends.least), turned(ends.greatest))
    }

    /// The words that are answered of all pairs, where both sets tell their own and each pair answers one.
    fn told_answers<V: Domain>(
        &self,
        question: PropertyQuestion,
        objects: V,
        numbers: V,
    ) -> Option<V>
        ensures { result ≡ told_words V.operations self.now question (members V.operations objects numbers) }
    {
        match members(objects, numbers) {
            Some((few, others)) => self.list_answers(question, few.as_slice(), others.as_slice()),
            None => None,
        }
    }

    /// Those of each object of one list with each number of another: each column is taken once, whichever numbers it stands for.
    fn list_answers<V: Domain>(
        &self,
        question: PropertyQuestion,
        objects: &[u16],
        numbers: &[u16],
    ) -> Option<V>
        ensures { result ≡ column_words V.operations self.now question objects.now (columns numbers.now) }
    {
        let mut columns = Gathered::none();
        add_columns(&mut columns, numbers);
        match columns.few() {
            Some(each) => self.column_answers(question, objects, each),
            None => None,
        }
    }

    /// Those of each object with each column.
    fn column_answers<V: Domain>(
        &self,
        question: PropertyQuestion,
        objects: &[u16],
        columns: &[u16],
    ) -> Option<V>
        ensures { result ≡ words_if V.operations (pairs self.now question objects.now columns.now) }
    {
        let mut all = Gathered::none();
        if self.add_answers(&mut all, question, objects, columns) {
            Some(V::packed(&all))
        } else {
            None
        }
    }

    /// Adds what each pair answers, as far as each answers one word, and tells whether all do. What a value is has a loop of its own, in which
    /// nothing asks which question it is.
    fn add_answers(
        &self,
        all: &mut Gathered,
        question: PropertyQuestion,
        objects: &[u16],
        columns: &[u16],
    ) -> bool
        ensures exact { result ≡ list_all is_exact (pairs self.now question objects.now columns.now) }
        ensures words { IsTrue result → all.new ≡ with_words (map word_of (pairs self.now question objects.now columns.now)) all.old }
    {
        let marked = self.marked();
        match question {
            PropertyQuestion::Value => {
                self.add_pairs(all, &marked, PropertyQuestion::Value, objects, columns)
            }
            PropertyQuestion::Address | PropertyQuestion::Next => {
                self.add_pairs(all, &marked, question, objects, columns)
            }
        }
    }

    /// The same, object by object.
    #[inline(always)]
    fn add_pairs(
        &self,
        all: &mut Gathered,
        marked: &Marked<'_>,
        question: PropertyQuestion,
        objects: &[u16],
        columns: &[u16],
    ) -> bool
        requires { told_by marked.now.story.now marked.now.ranges.now ≡ self.now }
        ensures exact { result ≡ list_all is_exact (pairs self.now question objects.now columns.now) }
        ensures words { IsTrue result → all.new ≡ with_words (map word_of (pairs self.now question objects.now columns.now)) all.old }
    {
        let [first, rest @ ..] = objects else {
            return true;
        };
        self.add_row(all, marked, question, *first, columns)
            && self.add_pairs(all, marked, question, rest, columns)
    }

    /// The same of one object, if the story has it.
    #[inline(always)]
    fn add_row(
        &self,
        all: &mut Gathered,
        marked: &Marked<'_>,
        question: PropertyQuestion,
        object: u16,
        columns: &[u16],
    ) -> bool
        requires { told_by marked.now.story.now marked.now.ranges.now ≡ self.now }
        ensures exact { result ≡ list_all is_exact (row self.now question object columns.now) }
        ensures words { IsTrue result → all.new ≡ with_words (map word_of (row self.now question object columns.now)) all.old }
    {
        if 1 <= object && object <= u16::from(marked.story.objects()) {
            self.add_ends(all, marked, question, object as u8, columns)
        } else {
            true
        }
    }

    /// The same of an object of the story.
    #[inline(always)]
    fn add_ends(
        &self,
        all: &mut Gathered,
        marked: &Marked<'_>,
        question: PropertyQuestion,
        object: u8,
        columns: &[u16],
    ) -> bool
        requires told { told_by marked.now.story.now marked.now.ranges.now ≡ self.now }
        requires least { 1 ≤ object }
        requires most { object ≤ self.now.story.objects }
        ensures exact { result ≡ list_all is_exact (map (ends_of self.now question object) columns.now) }
        ensures words { IsTrue result → all.new ≡ with_words (map word_of (map (ends_of self.now question object) columns.now)) all.old }
    {
        let [first, rest @ ..] = columns else {
            return true;
        };
        let number = column(*first);
        let ends = answer_ends(marked, question, number, self.property(object, number));
        if ends.least != ends.greatest {
            return false;
        }
        all.add(turned(ends.least));
        self.add_ends(all, marked, question, object, rest)
    }

    /// The ends of what may be answered of objects and numbers of two sets.
    #[tactic(auto, unfolding(crate::specs::Pairs::ends_below))]
    fn all_ends<V: Domain>(&self, question: PropertyQuestion, objects: V, numbers: V) -> Ends
        ensures { result ≡ all_ends V.operations self.now question objects numbers }
    {
        let mut ends = Ends::NONE;
        for block in 0..self.block_count() {
            ends = ends.join(self.block_ends(question, block, objects, numbers));
        }
        ends
    }

    /// Those of the objects of a block.
    fn block_ends<V: Domain>(
        &self,
        question: PropertyQuestion,
        block: u8,
        objects: V,
        numbers: V,
    ) -> Ends
        requires few { block < 16 }
        ensures { result ≡ block_ends V.operations self.now question objects numbers block }
    {
        if self.has_whole(block, objects) {
            self.row_ends(question, block, numbers)
        } else {
            self.some_ends(question, block, objects, numbers)
        }
    }

    /// Those of a whole block.
    #[tactic(auto, unfolding(crate::specs::Pairs::ends_below))]
    fn row_ends<V: Domain>(&self, question: PropertyQuestion, block: u8, numbers: V) -> Ends
        requires few { block < 16 }
        ensures { result ≡ ends_below 33 (row_end V.operations self.now question numbers block) }
    {
        let mut ends = Ends::NONE;
        for number in 0..NUMBERS + 1 {
            ends = ends.join(self.column_ends(question, block, number, numbers));
        }
        ends
    }

    /// Those of a whole block and a number, where it may be asked for.
    fn column_ends<V: Domain>(
        &self,
        question: PropertyQuestion,
        block: u8,
        number: u16,
        numbers: V,
    ) -> Ends
        requires few { block < 16 }
        requires small { number ≤ 32 }
        ensures { result ≡ row_end V.operations self.now question numbers block number }
    {
        if is_asked(numbers, number) {
            self.block_cell(block, number).answer_ends(question)
        } else {
            Ends::NONE
        }
    }

    /// Those of a block, object by object.
    #[tactic(auto, unfolding(crate::specs::Pairs::ends_below))]
    fn some_ends<V: Domain>(
        &self,
        question: PropertyQuestion,
        block: u8,
        objects: V,
        numbers: V,
    ) -> Ends
        requires few { block < 16 }
        ensures { result ≡ block_ends V.operations self.now question objects numbers block }
    {
        let mut ends = Ends::NONE;
        for place in 0..BLOCK_LENGTH {
            ends = ends.join(self.place_ends(
                question,
                BLOCK_LENGTH * block + place,
                objects,
                numbers,
            ));
        }
        ends
    }

    /// Those of an object, less 1, if the story has it.
    fn place_ends<V: Domain>(
        &self,
        question: PropertyQuestion,
        below: u8,
        objects: V,
        numbers: V,
    ) -> Ends
        ensures { result ≡ (if nat_lt below self.now.story.objects then object_ends V.operations self.now question objects numbers (below + 1) else no_word) }
    {
        if below < self.story.objects() {
            self.object_ends(question, below + 1, objects, numbers)
        } else {
            Ends::NONE
        }
    }

    /// Those of one object, where it may be asked.
    fn object_ends<V: Domain>(
        &self,
        question: PropertyQuestion,
        object: u8,
        objects: V,
        numbers: V,
    ) -> Ends
        requires least { 1 ≤ object }
        requires most { object ≤ self.now.story.objects }
        ensures { result ≡ object_ends V.operations self.now question objects numbers object }
    {
        if may_have(objects, u16::from(object)) {
            self.number_ends(question, object, numbers)
        } else {
            Ends::NONE
        }
    }

    /// Those of one object with each number that may be asked for.
    #[tactic(auto, unfolding(crate::specs::Pairs::ends_below))]
    fn number_ends<V: Domain>(&self, question: PropertyQuestion, object: u8, numbers: V) -> Ends
        requires least { 1 ≤ object }
        requires most { object ≤ self.now.story.objects }
        ensures { result ≡ number_ends V.operations self.now question numbers object }
    {
        let mut ends = Ends::NONE;
        for number in 0..NUMBERS + 1 {
            ends = ends.join(self.pair_ends(question, object, number, numbers));
        }
        ends
    }

    /// Those of one object and a number, where it may be asked for.
    fn pair_ends<V: Domain>(
        &self,
        question: PropertyQuestion,
        object: u8,
        number: u16,
        numbers: V,
    ) -> Ends
        requires least { 1 ≤ object }
        requires most { object ≤ self.now.story.objects }
        requires small { number ≤ 32 }
        ensures { result ≡ pair_ends V.operations self.now question numbers object number }
    {
        if is_asked(numbers, number) {
            self.answer_ends(question, object, number)
        } else {
            Ends::NONE
        }
    }
}

/// The set from the least word of a set to its greatest.
fn hull<V: Domain>(set: V) -> V
    ensures { result ≡ hull V.operations set }
{
    V::between(set.lowest(), set.highest())
}

/// Whether a set may have a word.
fn may_have<V: Domain>(set: V, word: u16) -> bool
    ensures { result ≡ may_have V.operations set word }
{
    set.meet(V::single(word)).is_some()
}

/// Whether a set may have a number above those of all properties.
fn may_exceed<V: Domain>(set: V) -> bool
    ensures { result ≡ may_exceed V.operations set }
{
    set.meet(V::between(32, 0x7fff)).is_some() || set.meet(V::between(0x8000, 0xffff)).is_some()
}

/// Whether a number of properties may be asked for; 32 stands for all that no property has.
fn is_asked<V: Domain>(numbers: V, number: u16) -> bool
    ensures { result ≡ is_asked V.operations numbers number }
{
    if number == NUMBERS {
        return may_exceed(numbers);
    }
    may_have(numbers, number)
}
