//! Intervals and short lists as a domain.

ghost use Rattle.std.specs.Prelude.{◌≡◌, ◌≤◌, ◌<◌, ◌↔◌, ◌+◌, ◌-◌, ◌%◌, ◌++◌, ℕ, IsTrue, IfSome, IfNone, Some, None, option_map, length, map};
ghost use Rattle.zdomain.specs.Domain.{In, Within};
ghost use Rattle.std.specs.List.{filter};
ghost use Rattle.zword.specs.Unary.{transform};
ghost use Rattle.zdomain.specs.Few.{turned, is_among, words_from, gathered, with_words};
ghost use Rattle.zdomain.specs.Values.{values_operations, has, lowest, highest, hull, members, run_members, packed, found, meet, row, rows, between, both, list_or, join_few, unary_few, binary_few};
ghost use Rattle.zdomain.specs.ValuesLaw.{values_sound};

use crate::domain::Domain;
use crate::few::{Few, MOST_FEW, first_of, is_scattered, last_of, turned};
use crate::gathered::Gathered;
use crate::interval::Interval;
use crate::rising::{add_shared, are_among, are_words, has_row};
use crate::values::{Scattered, Values};
use arrayvec::ArrayVec;
use zword::{BinaryOp, Question, UnaryOp};

impl Domain for Values {
    ghost operations = { values_operations };

    ghost sound = { values_sound };

    fn single(word: u16) -> Values {
        Values::Run(Interval::of_word(word))
    }

    fn any() -> Values {
        Values::Run(Interval::all())
    }

    fn between(least: u16, greatest: u16) -> Values {
        Values::Run(between(least, greatest))
    }

    fn contains(self, word: u16) -> bool {
        has(&self, word)
    }

    fn is_within(self, other: Values) -> bool {
        match self {
            Values::Run(run) => is_run_within(run, &other),
            Values::List(list) => is_list_within(list, &other),
        }
    }

    fn member(self) -> u16 {
        match self {
            Values::Run(run) => run.member(),
            Values::List(list) => first_of(list.few.as_slice()),
        }
    }

    fn lowest(self) -> u16 {
        lowest(&self)
    }

    fn highest(self) -> u16 {
        highest(&self)
    }

    fn least_from(self, word: u16) -> Option<u16> {
        match self {
            Values::Run(run) => run.least_from(word),
            Values::List(list) => least_among(list.few.as_slice(), word),
        }
    }

    fn known(self) -> Option<u16> {
        match self {
            Values::Run(run) => run.known(),
            Values::List(_) => None,
        }
    }

    fn few(self) -> Option<Few> {
        members(&self)
    }

    fn packed(gathered: &Gathered) -> Values {
        packed(gathered)
    }

    fn join(self, other: Values) -> Values {
        join_few(&self, &other, members(&self), members(&other))
    }

    fn meet(self, other: Values) -> Option<Values> {
        meet(&self, &other)
    }

    fn unary(operation: UnaryOp, operand: Values) -> Values {
        match operation {
            UnaryOp::Keep => operand,
            UnaryOp::Not => unary_few(operation, &operand, members(&operand)),
        }
    }

    fn binary(operation: BinaryOp, first: Values, second: Values) -> Values {
        binary_few(
            operation,
            &first,
            &second,
            members(&first),
            members(&second),
        )
    }

    fn narrow(
        question: Question,
        answer: bool,
        first: Values,
        second: Values,
    ) -> Option<(Values, Values)> {
        match Interval::narrow(question, answer, hull(&first), hull(&second)) {
            Some((left, right)) => both(
                meet(&first, &Values::Run(left)),
                meet(&second, &Values::Run(right)),
            ),
            None => None,
        }
    }
}

/// The words of either, where these are the members, as far as each tells them.
fn join_few(a: &Values, b: &Values, few: Option<Few>, others: Option<Few>) -> Values
    ensures { result ≡ join_few a.now b.now few others }
{
    match (few, others) {
        (Some(first), Some(second)) => {
            let mut all = Gathered::none();
            all.add_all(first.as_slice());
            all.add_all(second.as_slice());
            packed(&all)
        }
        (Some(_), None) => Values::Run(hull(a).join(hull(b))),
        (None, _) => Values::Run(hull(a).join(hull(b))),
    }
}

/// What an operation makes of those of a set.
fn unary_few(operation: UnaryOp, a: &Values, few: Option<Few>) -> Values
    ensures { result ≡ unary_few operation a.now few }
{
    match few {
        Some(words) => {
            let mut all = Gathered::none();
            add_turned(&mut all, operation, words.as_slice());
            packed(&all)
        }
        None => Values::Run(Interval::unary(operation, hull(a))),
    }
}

/// What it makes of those of two.
fn binary_few(
    operation: BinaryOp,
    a: &Values,
    b: &Values,
    few: Option<Few>,
    others: Option<Few>,
) -> Values
    ensures { result ≡ binary_few operation a.now b.now few others }
{
    match (few, others) {
        (Some(words), Some(more)) => results(operation, words.as_slice(), more.as_slice()),
        (Some(_), None) => Values::Run(Interval::binary(operation, hull(a), hull(b))),
        (None, _) => Values::Run(Interval::binary(operation, hull(a), hull(b))),
    }
}

/// What an operation makes of each word of one list with each of another by which it is defined. Of one word and one, which is what most
/// operations are asked for, nothing has to be gathered.
fn results(operation: BinaryOp, words: &[u16], more: &[u16]) -> Values
    ensures { result ≡ packed (gathered (rows operation words.now more.now)) }
{
    match (words, more) {
        ([word], [other]) if operation.is_defined(*other) => {
            Values::Run(Interval::of_word(operation.apply(*word, *other)))
        }
        _ => gathered_results(operation, words, more),
    }
}

/// All of them, gathered.
fn gathered_results(operation: BinaryOp, words: &[u16], more: &[u16]) -> Values
    ensures { result ≡ packed (gathered (rows operation words.now more.now)) }
{
    let mut all = Gathered::none();
    add_results(&mut all, operation, words, more);
    packed(&all)
}

/// Two sets, where there are both.
fn both(first: Option<Values>, second: Option<Values>) -> Option<(Values, Values)>
    ensures { result ≡ both first second }
{
    match (first, second) {
        (None, _) => None,
        (Some(_), None) => None,
        (Some(a), Some(b)) => Some((a, b)),
    }
}

/// The words that both have.
fn meet(first: &Values, second: &Values) -> Option<Values>
    ensures { result ≡ meet first.now second.now }
{
    match (first, second) {
        (Values::Run(run), Values::Run(other)) => match run.meet(*other) {
            Some(common) => Some(Values::Run(common)),
            None => None,
        },
        (Values::Run(_), Values::List(list)) => common(first, *list),
        (Values::List(list), _) => common(second, *list),
    }
}

/// The words of a list that a set has, gathered.
fn shared(set: &Values, list: Scattered) -> Gathered
    ensures { result ≡ gathered (filter (has set.now) list.few) }
{
    let mut all = Gathered::none();
    if let Values::List(other) = set {
        add_shared(&mut all, list.few.as_slice(), other.few.as_slice());
        return all;
    }
    add_between(&mut all, set, list.few.as_slice());
    all
}

/// The words of a list that a set has.
fn common(set: &Values, list: Scattered) -> Option<Values>
    ensures { result ≡ found (gathered (filter (has set.now) list.few)) }
{
    found(&shared(set, list))
}

/// The set of what was gathered, if anything was.
fn found(gathered: &Gathered) -> Option<Values>
    ensures { result ≡ found gathered.now }
{
    if gathered.greatest() < gathered.least() {
        None
    } else {
        Some(packed(gathered))
    }
}

/// The words from one to another.
fn between(least: u16, greatest: u16) -> Interval
    ensures { result ≡ between least greatest }
{
    Interval::between(least, greatest)
}

/// Whether it has the word.
fn has(set: &Values, word: u16) -> bool
    ensures { result ≡ has set.now word }
{
    match set {
        Values::Run(run) => {
            let value = word.cast_signed();
            run.lo <= value && value <= run.hi
        }
        Values::List(list) => is_among(word, list.few.as_slice()),
    }
}

/// Whether a list has the word.
fn is_among(word: u16, words: &[u16]) -> bool
    ensures { result ≡ is_among word words.now }
{
    words.contains(&word)
}

fn lowest(set: &Values) -> u16
    ensures { result ≡ lowest set.now }
{
    match set {
        Values::Run(run) => run.lowest(),
        Values::List(list) => first_of(list.few.as_slice()),
    }
}

fn highest(set: &Values) -> u16
    ensures { result ≡ highest set.now }
{
    match set {
        Values::Run(run) => run.highest(),
        Values::List(list) => last_of(list.few.as_slice()),
    }
}

/// The interval from the least to the greatest.
fn hull(set: &Values) -> Interval
    ensures { result ≡ hull set.now }
{
    match set {
        Values::Run(run) => *run,
        Values::List(_) => between(lowest(set), highest(set)),
    }
}

/// The members, where they are at most 64.
fn members(set: &Values) -> Option<Few>
    ensures { result ≡ members set.now }
{
    match set {
        Values::Run(run) => run_members(
            run.lowest(),
            turned(run.highest()).saturating_sub(turned(run.lowest())),
        ),
        Values::List(list) => Some(list.few),
    }
}

/// A word with so many behind it, where they are at most 64.
fn run_members(least: u16, more: u16) -> Option<Few>
    ensures { result ≡ run_members least more }
{
    if more >= 64 {
        return None;
    }
    let mut words = ArrayVec::new();
    push_from(&mut words, least, usize::from(more) + 1);
    Some(Few::of(words.as_slice()))
}

/// Pushes so many words from one on.
#[tactic(auto, unfolding(crate::specs::Few::words_from))]
fn push_from(words: &mut ArrayVec<u16, MOST_FEW>, word: u16, count: usize)
    requires { length words.old.items + count ≤ 64 }
    ensures { words.new.items ≡ words.old.items ++ words_from word count }
{
    if count > 0 {
        words.push(word);
        push_from(words, word.wrapping_add(1), count - 1);
    }
}

/// The set of what was gathered.
fn packed(gathered: &Gathered) -> Values
    ensures { result ≡ packed gathered.now }
{
    let other = between(turned(gathered.least()), turned(gathered.greatest()));
    match gathered.few() {
        Some(words) => list_or(other, words),
        None => Values::Run(other),
    }
}

/// A list, where it is scattered, and else an interval.
fn list_or(other: Interval, words: &[u16]) -> Values
    requires { length words.now ≤ 64 }
    ensures { result ≡ list_or other (Some words.now) }
{
    if is_scattered(words) {
        Values::List(Scattered {
            few: Few::of(words),
        })
    } else {
        Values::Run(other)
    }
}

/// Whether a set has each word of a list.
fn are_in(words: &[u16], set: &Values) -> bool
    ensures { IsTrue result ↔ ((x : ℕ) → x < 65536 → IsTrue (is_among x words.now) → IsTrue (has set.now x)) }
{
    match words {
        [] => true,
        [first, rest @ ..] => has(set, *first) && are_in(rest, set),
    }
}

/// Whether a set has each word of a list that is none.
fn is_list_within(list: Scattered, set: &Values) -> bool
    ensures { IsTrue result ↔ Within values_operations (Values.List list) set.now }
{
    match set {
        Values::Run(_) => are_in(list.few.as_slice(), set),
        Values::List(other) => {
            are_words(list.few.as_slice());
            are_among(list.few.as_slice(), other.few.as_slice())
        }
    }
}

/// Whether it has each word of an interval.
fn is_run_within(run: Interval, set: &Values) -> bool
    ensures { IsTrue result ↔ Within values_operations (Values.Run run) set.now }
{
    match set {
        Values::Run(other) => run.is_within(*other),
        Values::List(list) => {
            let least = run.lowest();
            has_row(
                list.few.as_slice(),
                least,
                turned(run.highest()).saturating_sub(turned(least)),
            )
        }
    }
}

/// The least word of a list from one on, words taken without sign.
fn least_among(words: &[u16], from: u16) -> Option<u16>
    ensures some { IfSome result (λ x. IsTrue (is_among x words.now) × (from ≤ x) × ((y : ℕ) → IsTrue (is_among y words.now) → from ≤ y → x ≤ y)) }
    ensures none { IfNone result ((y : ℕ) → IsTrue (is_among y words.now) → from ≤ y → ⊥) }
{
    let [first, rest @ ..] = words else {
        return None;
    };
    let later = least_among(rest, from);
    if *first < from {
        return later;
    }
    match later {
        Some(word) => Some(word.min(*first)),
        None => Some(*first),
    }
}

/// Adds what an operation makes of the words of a list.
#[tactic(auto, unfolding(crate::specs::Few::with_words))]
fn add_turned(all: &mut Gathered, operation: UnaryOp, words: &[u16])
    ensures { all.new ≡ with_words (map (transform operation) words.now) all.old }
{
    if let [first, rest @ ..] = words {
        all.add(operation.apply(*first));
        add_turned(all, operation, rest);
    }
}

/// Adds what an operation makes of those of two lists. Each has a loop of its own, in which nothing asks which it is.
fn add_results(all: &mut Gathered, operation: BinaryOp, words: &[u16], others: &[u16])
    ensures { all.new ≡ with_words (rows operation words.now others.now) all.old }
{
    match operation {
        BinaryOp::Add => add_rows(all, BinaryOp::Add, words, others),
        BinaryOp::Sub => add_rows(all, BinaryOp::Sub, words, others),
        BinaryOp::Mul => add_rows(all, BinaryOp::Mul, words, others),
        BinaryOp::Div => add_rows(all, BinaryOp::Div, words, others),
        BinaryOp::Mod => add_rows(all, BinaryOp::Mod, words, others),
        BinaryOp::Or => add_rows(all, BinaryOp::Or, words, others),
        BinaryOp::And => add_rows(all, BinaryOp::And, words, others),
    }
}

/// Adds what it makes of a word and those of a list by which it is defined.
#[tactic(auto, unfolding(crate::specs::Few::with_words))]
#[inline(always)]
fn add_row(all: &mut Gathered, operation: BinaryOp, word: u16, others: &[u16])
    ensures { all.new ≡ with_words (row operation word others.now) all.old }
{
    if let [first, rest @ ..] = others {
        if operation.is_defined(*first) {
            all.add(operation.apply(word, *first));
        }
        add_row(all, operation, word, rest);
    }
}

/// Adds what it makes of those of two lists.
#[tactic(auto, unfolding(crate::specs::Few::with_words, crate::specs::Values::rows), using(crate::proofs::Gathering::one_by_one))]
#[inline(always)]
fn add_rows(all: &mut Gathered, operation: BinaryOp, words: &[u16], others: &[u16])
    ensures { all.new ≡ with_words (rows operation words.now others.now) all.old }
{
    if let [first, rest @ ..] = words {
        add_row(all, operation, *first, others);
        add_rows(all, operation, rest, others);
    }
}

/// Adds those of a list that an interval has.
#[tactic(auto, unfolding(crate::specs::Few::with_words))]
fn add_between(all: &mut Gathered, set: &Values, words: &[u16])
    ensures { all.new ≡ with_words (filter (has set.now) words.now) all.old }
{
    if let [first, rest @ ..] = words {
        if has(set, *first) {
            all.add(*first);
        }
        add_between(all, set, rest);
    }
}
