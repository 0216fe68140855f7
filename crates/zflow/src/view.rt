//! What is known before an instruction, and what of it is read.

ghost use Rattle.std.specs.Prelude.{◌≡◌, ◌≤◌, drop, length, reverse, slice_index_or};
ghost use Rattle.zflow.specs.Transfer.{below, operand_set, pops, values_of, variable_set};
ghost use Rattle.zflow.specs.Lent.{globals_seen};
ghost use Rattle.zflow.specs.View.{seen};

use crate::global_sets::Globals;
use zcode::Operand;
use zdomain::Domain;

/// What is known before an instruction, lent.
#[derive(Clone, Copy)]
pub(crate) struct View<'a, V> {
    /// The sets of the globals.
    pub(crate) globals: Globals<'a, V>,
    /// The sets of the locals.
    pub(crate) locals: &'a [V],
    /// The sets of the slots, the top last.
    pub(crate) slots: &'a [V],
}

/// How many words operands take off the stack.
pub(crate) fn pops(operands: &[Operand]) -> usize
    ensures { result ≡ pops operands.now }
{
    operands
        .iter()
        .filter(|operand| matches!(operand, Operand::Variable(0)))
        .count()
}

/// The slots without so many of the topmost.
pub(crate) fn below<V>(count: usize, slots: &[V]) -> &[V]
    ensures lasting { reverse result.now ≡ drop count (reverse slots.now) }
    ensures fits { length result.now ≤ length slots.now }
{
    &slots[..slots.len().saturating_sub(count)]
}

impl<'a, V: Domain> View<'a, V> {
    /// What is known once so many slots were taken.
    pub(crate) fn below(self, count: usize) -> View<'a, V>
        ensures globals { globals_seen result.globals ≡ globals_seen self.entry.globals }
        ensures shape { seen result ≡ below count (seen self.entry) }
    {
        View {
            globals: self.globals,
            locals: self.locals,
            slots: below(count, self.slots),
        }
    }

    /// The values of a variable; one that isn't there may have any.
    pub(crate) fn variable_set(self, variable: u8) -> V
        ensures { result ≡ variable_set V.operations (globals_seen self.entry.globals) variable (seen self.entry) }
    {
        if variable >= 16 {
            return self.global_set(usize::from(variable) - 16);
        }
        let found = match variable {
            0 => self.slots.last(),
            _ => self.locals.get(usize::from(variable) - 1),
        };
        match found {
            Some(set) => *set,
            None => V::any(),
        }
    }

    /// The values of a global, by its index; one that isn't there may have any.
    fn global_set(self, index: usize) -> V
        ensures { result ≡ slice_index_or (globals_seen self.entry.globals) index V.operations.any }
    {
        match self.globals.get(index) {
            Some(set) => set,
            None => V::any(),
        }
    }

    /// The values of an operand.
    fn values_of(self, operand: Operand) -> V
        ensures { result ≡ values_of V.operations (globals_seen self.entry.globals) operand (seen self.entry) }
    {
        match operand {
            Operand::Constant(word) => V::single(word),
            Operand::Variable(variable) => self.variable_set(variable),
        }
    }

    /// The values of an operand, by its place among them: 0, where it isn't there.
    pub(crate) fn set_at(self, operands: &[Operand], index: usize) -> V
        ensures { result ≡ operand_set V.operations (globals_seen self.entry.globals) operands.now (seen self.entry) index }
    {
        match operands.get(index) {
            Some(operand) => self.below(pops(&operands[..index])).values_of(*operand),
            None => V::single(0),
        }
    }

    /// The sets of the first two operands: 0, where there is none.
    pub(crate) fn read(self, operands: &[Operand]) -> (V, V)
        ensures first { result.0 ≡ operand_set V.operations (globals_seen self.entry.globals) operands.now (seen self.entry) 0 }
        ensures second { result.1 ≡ operand_set V.operations (globals_seen self.entry.globals) operands.now (seen self.entry) 1 }
    {
        let nothing = V::single(0);
        match operands {
            [] => (nothing, nothing),
            [first] => (self.values_of(*first), nothing),
            [first, second, ..] => {
                let after = self.below(pops(&[*first]));
                (self.values_of(*first), after.values_of(*second))
            }
        }
    }
}
