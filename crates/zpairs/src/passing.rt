//! What is asked of each object of a set with each number of a set.

ghost use Rattle.std.specs.Prelude.{◌↔◌, ◌≤◌, ℕ, IsTrue};
ghost use Rattle.zdomain.specs.Domain.{In};
ghost use Rattle.zpairs.specs.Cells.{absent_passes};

use crate::blocks::BLOCK_LENGTH;
use crate::cell::Test;
use crate::columns::{NUMBERS, add_columns, column};
use crate::properties::Properties;
use crate::told::members;
use zdomain::{Domain, Gathered};
use zobj::PropertyQuestion;

impl<'a> Properties<'a> {
    ghost use Rattle.std.specs.Prelude.{◌↔◌, ◌≤◌, ◌<◌, ◌+◌, ◌*◌, ℕ, IsTrue};
    ghost use Rattle.zdomain.specs.Few.{is_among};
    ghost use Rattle.zdomain.specs.Domain.{In};
    ghost use Rattle.zpairs.specs.Blocks.{EachInBlock};
    ghost use Rattle.zpairs.specs.Cells.{cell_at, passes};
    ghost use Rattle.zpairs.specs.Pairs.{EachPair, EachWord, column, columns};

    /// Whether each object of a set passes a test with each number of a set.
    pub(crate) fn pass<V: Domain>(&self, test: Test, objects: V, numbers: V) -> bool
        ensures { IsTrue result ↔ EachPair V.operations self.now.story objects numbers (λ x n. IsTrue (passes test n (cell_at self.now x n))) }
    {
        self.words_pass(test, objects, numbers) || self.blocks_pass(test, objects, numbers)
    }

    /// Whether the test is always passed, or both sets tell their words and each pair of them passes. Where that isn't so, nothing is said.
    fn words_pass<V: Domain>(&self, test: Test, objects: V, numbers: V) -> bool
        ensures { IsTrue result → EachPair V.operations self.now.story objects numbers (λ x n. IsTrue (passes test n (cell_at self.now x n))) }
    {
        if let Test::Answered(PropertyQuestion::Address) = test {
            return true;
        }
        match members(objects, numbers) {
            Some((few, others)) => self.lists_pass(test, few.as_slice(), others.as_slice()),
            None => false,
        }
    }

    /// Whether each object of one list that the story has passes a test with each number of another: each column is taken once.
    fn lists_pass(&self, test: Test, objects: &[u16], numbers: &[u16]) -> bool
        ensures { IsTrue result → EachWord self.now.story objects.now numbers.now (λ x n. IsTrue (passes test n (cell_at self.now x n))) }
    {
        let mut columns = Gathered::none();
        add_columns(&mut columns, numbers);
        match columns.few() {
            Some(each) => self.objects_pass(test, objects, each),
            None => false,
        }
    }

    /// Whether each object of a list that the story has passes a test in each column.
    fn objects_pass(&self, test: Test, objects: &[u16], columns: &[u16]) -> bool
        ensures { IsTrue result → EachWord self.now.story objects.now columns.now (λ x n. IsTrue (passes test (column n) (cell_at self.now x (column n)))) }
    {
        let [first, rest @ ..] = objects else {
            return true;
        };
        self.told_object_passes(test, *first, columns) && self.objects_pass(test, rest, columns)
    }

    /// Whether an object does, if the story has it.
    fn told_object_passes(&self, test: Test, object: u16, columns: &[u16]) -> bool
        ensures { IsTrue result → 1 ≤ object → object ≤ self.now.story.objects → (n : ℕ) → IsTrue (is_among n columns.now) → IsTrue (passes test (column n) (cell_at self.now object (column n))) }
    {
        if 1 <= object && object <= u16::from(self.story.objects()) {
            self.columns_pass(test, object as u8, columns)
        } else {
            true
        }
    }

    /// Whether an object of the story does.
    fn columns_pass(&self, test: Test, object: u8, columns: &[u16]) -> bool
        requires least { 1 ≤ object }
        requires most { object ≤ self.now.story.objects }
        ensures { IsTrue result → (n : ℕ) → IsTrue (is_among n columns.now) → IsTrue (passes test (column n) (cell_at self.now object (column n))) }
    {
        let [first, rest @ ..] = columns else {
            return true;
        };
        let number = column(*first);
        self.passes(test, object, number) && self.columns_pass(test, object, rest)
    }

    /// Whether each object of a set passes a test with each number of a set, by blocks.
    fn blocks_pass<V: Domain>(&self, test: Test, objects: V, numbers: V) -> bool
        ensures { IsTrue result ↔ EachPair V.operations self.now.story objects numbers (λ x n. IsTrue (passes test n (cell_at self.now x n))) }
    {
        for block in 0..self.block_count() {
            if !self.block_passes(test, block, objects, numbers) {
                return false;
            }
        }
        true
    }

    /// Whether each object of a block that a set has passes a test with each number of a set.
    fn block_passes<V: Domain>(&self, test: Test, block: u8, objects: V, numbers: V) -> bool
        requires few { block < 16 }
        requires some { 16 * block < self.now.story.objects }
        ensures { IsTrue result ↔ EachInBlock self.now block (λ x. In V.operations objects x → (n : ℕ) → In V.operations numbers n → IsTrue (passes test n (cell_at self.now x n))) }
    {
        if self.has_whole(block, objects) {
            self.row_passes(test, block, numbers)
        } else {
            self.some_pass(test, block, objects, numbers)
        }
    }

    /// Whether each object of a block passes a test with each number of a set.
    fn row_passes<V: Domain>(&self, test: Test, block: u8, numbers: V) -> bool
        requires few { block < 16 }
        requires some { 16 * block < self.now.story.objects }
        ensures { IsTrue result ↔ EachInBlock self.now block (λ x. (n : ℕ) → In V.operations numbers n → IsTrue (passes test n (cell_at self.now x n))) }
    {
        for number in 0..NUMBERS {
            if !self.column_passes(test, block, number, numbers) {
                return false;
            }
        }
        absent_pass(test, numbers)
    }

    /// Whether each passes it with a number, where a set has it.
    fn column_passes<V: Domain>(&self, test: Test, block: u8, number: u16, numbers: V) -> bool
        requires few { block < 16 }
        requires some { 16 * block < self.now.story.objects }
        requires small { number < 32 }
        ensures { IsTrue result ↔ (In V.operations numbers number → EachInBlock self.now block (λ x. IsTrue (passes test number (cell_at self.now x number)))) }
    {
        if numbers.contains(number) {
            self.block_cell(block, number).passes(test, number)
        } else {
            true
        }
    }

    /// Whether each object of a block that a set has passes a test with each number of a set, object by object.
    fn some_pass<V: Domain>(&self, test: Test, block: u8, objects: V, numbers: V) -> bool
        requires { block < 16 }
        ensures { IsTrue result ↔ EachInBlock self.now block (λ x. In V.operations objects x → (n : ℕ) → In V.operations numbers n → IsTrue (passes test n (cell_at self.now x n))) }
    {
        for place in 0..BLOCK_LENGTH {
            if !self.place_passes(test, BLOCK_LENGTH * block + place, objects, numbers) {
                return false;
            }
        }
        true
    }

    /// Whether an object, less 1, does, if the story has it.
    fn place_passes<V: Domain>(&self, test: Test, below: u8, objects: V, numbers: V) -> bool
        ensures { IsTrue result ↔ (below < self.now.story.objects → In V.operations objects (below + 1) → (n : ℕ) → In V.operations numbers n → IsTrue (passes test n (cell_at self.now (below + 1) n))) }
    {
        if below < self.story.objects() {
            self.object_passes(test, below + 1, objects, numbers)
        } else {
            true
        }
    }

    /// Whether an object passes a test with each number of a set, where another set has it.
    fn object_passes<V: Domain>(&self, test: Test, object: u8, objects: V, numbers: V) -> bool
        requires least { 1 ≤ object }
        requires most { object ≤ self.now.story.objects }
        ensures { IsTrue result ↔ (In V.operations objects object → (n : ℕ) → In V.operations numbers n → IsTrue (passes test n (cell_at self.now object n))) }
    {
        if objects.contains(u16::from(object)) {
            self.numbers_pass(test, object, numbers)
        } else {
            true
        }
    }

    /// Whether it passes it with each number of a set.
    fn numbers_pass<V: Domain>(&self, test: Test, object: u8, numbers: V) -> bool
        requires least { 1 ≤ object }
        requires most { object ≤ self.now.story.objects }
        ensures { IsTrue result ↔ ((n : ℕ) → In V.operations numbers n → IsTrue (passes test n (cell_at self.now object n))) }
    {
        for number in 0..NUMBERS {
            if !self.number_passes(test, object, number, numbers) {
                return false;
            }
        }
        absent_pass(test, numbers)
    }

    /// Whether it passes it with a number, where a set has it.
    fn number_passes<V: Domain>(&self, test: Test, object: u8, number: u16, numbers: V) -> bool
        requires least { 1 ≤ object }
        requires most { object ≤ self.now.story.objects }
        requires small { number ≤ 32 }
        ensures { IsTrue result ↔ (In V.operations numbers number → IsTrue (passes test number (cell_at self.now object number))) }
    {
        if numbers.contains(number) {
            self.passes(test, object, number)
        } else {
            true
        }
    }
}

/// Whether a test is passed with each number of a set that no property has.
fn absent_pass<V: Domain>(test: Test, numbers: V) -> bool
    ensures { IsTrue result ↔ ((n : ℕ) → 32 ≤ n → In V.operations numbers n → IsTrue (absent_passes test)) }
{
    match numbers.least_from(NUMBERS) {
        Some(_) => test.absent_passes(),
        None => true,
    }
}
