//! What a player has from outside.

ghost use Rattle.std.specs.Prelude.{◌≡◌, ℕ, [], ◌∷◌, ◌++◌, List, None, Option, true};
ghost use Rattle.zplayer.specs.Outside.{Coming, CountsRefusal};
ghost use Rattle.zplayer.specs.World.{Draws, Gets, Kept, Puts};
ghost use Rattle.zquetzal.specs.declared.error.SaveError.{SaveError as ARefusal};

use zquetzal::SaveError;

/// What a play has from outside, all of it lent.
#[derive(Drop)]
pub struct World<'a, R, W, S, G> {
    /// What it reads lines from.
    pub reader: &'a mut R,
    /// What it writes to.
    pub writer: &'a mut W,
    /// Where its saves go, and come from.
    pub store: &'a mut S,
    /// Its random words.
    pub words: &'a mut G,
}

impl<'a, R, W, S, G> World<'a, R, W, S, G> {
    /// The world of these devices.
    pub fn new(
        reader: &'a mut R,
        writer: &'a mut W,
        store: &'a mut S,
        words: &'a mut G,
    ) -> World<'a, R, W, S, G>
        ensures reader { result.reader ≡ reader.entry }
        ensures writer { result.writer ≡ writer.entry }
        ensures store { result.store ≡ store.entry }
        ensures words { result.words ≡ words.entry }
    {
        World {
            reader,
            writer,
            store,
            words,
        }
    }
}

/// Where saves are kept.
pub trait SaveStore {
    /// The save that is kept, if there is one, where that is known.
    ghost kept: { Self → Option Kept } = { λ _. None };

    /// How often a call failed so far, a `u64` that stays at its last value.
    ghost failures: { Self → ℕ };

    /// The second comes of the first by calls, among which it was told of these refusals, the newest first. What is neither the store's
    /// own nor said of them is as it was.
    ghost Follows: { Self → Self → List ARefusal → Type 0 };

    /// Keeps a save in place of the one before. False where it failed: then the one before is still kept, and only then the
    /// count of failures rises.
    fn put(&mut self, save: &[u8]) -> bool
        ensures stores { Puts (kept self.old) save.now result (kept self.new) }
        ensures counts { CountsRefusal (failures self.old) (failures self.new) result }
        ensures follows { Follows self.old self.new [] };

    /// Puts the save that is kept into `save`, in the place of what is there. False where it failed, as where none is kept, and
    /// only then the count of failures rises.
    fn get(&mut self, save: &mut Vec<u8>) -> bool
        ensures gives { result ≡ true → Gets (kept self.old) save.new.items }
        ensures same { kept self.new ≡ kept self.old }
        ensures counts { CountsRefusal (failures self.old) (failures self.new) result }
        ensures follows { Follows self.old self.new [] };

    /// Is told why the bytes that it gave last were refused.
    fn refused(&mut self, error: SaveError)
        ensures same { (kept self.new ≡ kept self.old) × (failures self.new ≡ failures self.old) }
        ensures follows { Follows self.old self.new (error ∷ []) };

    /// A store that wasn't called.
    ghost itself: { (store : Self) → Follows store store [] };

    /// Calls one after another.
    ghost through: { (old now new : Self) (first then : List ARefusal) → Follows old now first → Follows now new then → Follows old new (then ++ first) };
}

/// Random words, one after another.
pub trait Words {
    /// The words to come, where they are known.
    ghost coming: { Self → Option Coming } = { λ _. None };

    /// The next word.
    fn next(&mut self) -> u16
        ensures { Draws (coming self.old) result (coming self.new) };
}
