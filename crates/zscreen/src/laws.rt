//! Laws of the definitions: the contracts of these functions, which do nothing.

ghost use Rattle.std.specs.Prelude.{◌≡◌, ◌++◌, List};
ghost use Rattle.zfault.specs.declared.item.Item.{Item};
ghost use Rattle.zscreen.specs.declared.status_lines.StatusLines.{StatusLines as AStatusLines};
ghost use Rattle.zscreen.specs.Rendering.{render};

/// The bytes of joined lists of items are the joined bytes.
#[tactic(auto, using(crate::proofs::Joins::renders))]
pub fn renderings_join()
    ensures { (asked : AStatusLines) (first second : List Item) → render asked (first ++ second) ≡ render asked first ++ render asked second }
{}
