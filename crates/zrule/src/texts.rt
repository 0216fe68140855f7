//! What rules ask of texts that are printed by their addresses, of short names, and of the status line.

ghost use Rattle.std.specs.Prelude.{◌↔◌, IfSome, IsTrue};
ghost use Rattle.zpairs.specs.Frozen.{frozen_by};
ghost use Rattle.zruns.specs.Names.{AreFixedNames};
ghost use Rattle.zruns.specs.Texts.{AreFixedTexts};
ghost use Rattle.zrule.specs.Claims.{claims_of};
ghost use Rattle.zrule.specs.Rules.{HasLineObject};

use crate::objects::are_below;
use zcert::{Certificate, Spelled};
use zflow::Demands;
use zruns::Tables;
use zstory::Story;

/// Whether each text that is printed, by its address or as a short name, ends in memory, and no play changes a byte of it.
pub(crate) fn prints_fixed<V: Spelled>(tables: &Tables<'_>, demands: &Demands<V>) -> bool
    ensures { IsTrue result ↔ IfSome demands.now.texts (λ x. AreFixedTexts V.operations tables.now.story (frozen_by tables.now.ranges) x.addressing x.places) × IfSome demands.now.named (AreFixedNames V.operations tables.now.story (frozen_by tables.now.ranges)) }
{
    texts_fixed(tables, demands) && names_fixed(tables, demands)
}

/// Whether each text that is printed by its address does.
fn texts_fixed<V: Spelled>(tables: &Tables<'_>, demands: &Demands<V>) -> bool
    ensures { IsTrue result ↔ IfSome demands.now.texts (λ x. AreFixedTexts V.operations tables.now.story (frozen_by tables.now.ranges) x.addressing x.places) }
{
    match demands.texts {
        Some(printed) => tables.texts().are_fixed(printed.addressing, printed.places),
        None => true,
    }
}

/// Whether each short name that is printed does, or is empty.
fn names_fixed<V: Spelled>(tables: &Tables<'_>, demands: &Demands<V>) -> bool
    ensures { IsTrue result ↔ IfSome demands.now.named (AreFixedNames V.operations tables.now.story (frozen_by tables.now.ranges)) }
{
    match demands.named {
        Some(objects) => tables.are_names_fixed(objects),
        None => true,
    }
}

/// Whether each value that the first global may have is 0 or the number of one of the story's objects.
pub(crate) fn has_line_object<V: Spelled>(story: &Story, certificate: &Certificate<V>) -> bool
    ensures { IsTrue result ↔ HasLineObject V.operations (claims_of V.operations certificate.now) story.now }
{
    match certificate.globals().first() {
        Some(set) => are_below(*set, u16::from(story.objects()) + 1),
        None => false,
    }
}
