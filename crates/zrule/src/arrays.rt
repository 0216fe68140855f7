//! What rules ask of elements of arrays, and of the buffers of a line.

ghost use Rattle.std.specs.Prelude.{◌↔◌, IfSome, IsTrue};
ghost use Rattle.zpairs.specs.Frozen.{frozen_by};
ghost use Rattle.zrule.specs.Rules.{AreRead, AreWritten};
ghost use Rattle.zruns.specs.Buffers.{AreBuffers};

use zcert::Spelled;
use zflow::{Access, Demands, Elements};
use zruns::{Runs, are_readable};
use zstory::Story;

/// Whether each element that is written is open.
pub(crate) fn writes_open<V: Spelled>(runs: &Runs<'_>, demands: &Demands<V>) -> bool
    ensures { IsTrue result ↔ IfSome demands.now.elements (λ x. AreWritten V.operations runs.now.story (frozen_by runs.now.ranges) x.access x.width x.arrays x.indices) }
{
    match demands.elements {
        Some(elements) => are_written(runs, elements),
        None => true,
    }
}

/// Whether elements are left alone, or each of them is open.
fn are_written<V: Spelled>(runs: &Runs<'_>, elements: Elements<V>) -> bool
    ensures { IsTrue result ↔ AreWritten V.operations runs.now.story (frozen_by runs.now.ranges) elements.access elements.width elements.arrays elements.indices }
{
    match elements.access {
        Access::Reading => true,
        Access::Writing => runs.are_open(elements.width, elements.arrays, elements.indices),
    }
}

/// Whether each element that is read can be.
pub(crate) fn reads_elements<V: Spelled>(story: &Story, demands: &Demands<V>) -> bool
    ensures { IsTrue result ↔ IfSome demands.now.elements (λ x. AreRead V.operations story.now x.access x.width x.arrays x.indices) }
{
    match demands.elements {
        Some(elements) => are_read(story, elements),
        None => true,
    }
}

/// Whether elements aren't read, or each of them can be.
fn are_read<V: Spelled>(story: &Story, elements: Elements<V>) -> bool
    ensures { IsTrue result ↔ AreRead V.operations story.now elements.access elements.width elements.arrays elements.indices }
{
    match elements.access {
        Access::Reading => are_readable(story, elements.width, elements.arrays, elements.indices),
        Access::Writing => true,
    }
}

/// Whether a line can always be stored in the buffers, if it stores one.
pub(crate) fn takes_line<V: Spelled>(runs: &Runs<'_>, demands: &Demands<V>) -> bool
    ensures { IsTrue result ↔ IfSome demands.now.buffers (λ b. AreBuffers V.operations runs.now.story (frozen_by runs.now.ranges) b.texts b.parses) }
{
    match demands.buffers {
        Some(buffers) => runs.are_buffers(buffers.texts, buffers.parses),
        None => true,
    }
}
