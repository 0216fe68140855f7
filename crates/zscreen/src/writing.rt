//! Writing items, with no memory taken.

ghost use Rattle.std.specs.Prelude.{◌≡◌, ◌≤◌, ◌++◌, OnErr, OnOk, length, slice_range};
ghost use Rattle.std.specs.Io.KnownBytes.{Appends};
ghost use Rattle.zfault.specs.Devices.{AppendsBeginning, BreaksOff, LeavesWaiting, RisesByOne};
ghost use Rattle.zscreen.specs.Rendering.{render, status_shown};

use crate::pieces::write_piece;
use crate::status::write_status;
use crate::status_lines::StatusLines;
use zfault::{Failed, Items, Mark, Sink};

/// Writes all items, status lines as they are asked for. Where a write fails, a beginning of their bytes was taken, which
/// isn't all of them. What was taken waits for a flush. It takes no memory.
pub fn write_items<W: Sink>(sink: &mut W, items: &Items, lines: StatusLines) -> Result<(), Failed>
    ensures ok { OnOk result (Appends (W.contents sink.old) (W.contents sink.new) (render lines items.now.items)) }
    ensures begun { OnErr result (AppendsBeginning (W.contents sink.old) (W.contents sink.new) (render lines items.now.items)) }
    ensures waiting { OnOk result (LeavesWaiting (W.contents sink.old) (W.contents sink.new) (W.waits sink.old) (W.waits sink.new) (render lines items.now.items)) }
    ensures broken_off { OnErr result (BreaksOff (W.contents sink.old) (W.contents sink.new) (W.waits sink.old) (W.waits sink.new) (render lines items.now.items)) }

    // The sink is blamed where a write of this call failed, and only there.
    ensures quiet { OnOk result (W.failures sink.new ≡ W.failures sink.old) }
    ensures blamed { OnErr result (RisesByOne (W.failures sink.old) (W.failures sink.new)) }
{
    match lines {
        StatusLines::Hidden => write_piece(sink, items.text()),
        StatusLines::Bracketed | StatusLines::Framed => write_with_status(sink, items, lines),
    }
}

// Writes text and status lines.
fn write_with_status<W: Sink>(sink: &mut W, items: &Items, lines: StatusLines) -> Result<(), Failed>
    ensures ok { OnOk result (LeavesWaiting (W.contents sink.old) (W.contents sink.new) (W.waits sink.old) (W.waits sink.new) (render lines items.now.items)) }
    ensures begun { OnErr result (BreaksOff (W.contents sink.old) (W.contents sink.new) (W.waits sink.old) (W.waits sink.new) (render lines items.now.items)) }
    ensures quiet { OnOk result (W.failures sink.new ≡ W.failures sink.old) }
    ensures blamed { OnErr result (RisesByOne (W.failures sink.old) (W.failures sink.new)) }
{
    let text = items.text();
    let mut written = 0;
    for mark in items.marks() {
        write_up_to(sink, text, written, mark, lines)?;
        written = mark.place;
    }
    write_piece(sink, &text[written..])
}

// Writes a status line, with the text before it from a place on.
#[tactic(auto, using(crate::proofs::Writes::whole_after, crate::proofs::Writes::begun_after, crate::proofs::Writes::begun_before))]
fn write_up_to<W: Sink>(
    sink: &mut W,
    text: &[u8],
    from: usize,
    mark: &Mark,
    lines: StatusLines,
) -> Result<(), Failed>
    requires order { from ≤ mark.now.place }
    requires within { mark.now.place ≤ length text.now }
    ensures ok { OnOk result (LeavesWaiting (W.contents sink.old) (W.contents sink.new) (W.waits sink.old) (W.waits sink.new) (slice_range text.now from mark.now.place ++ status_shown lines mark.now.status)) }
    ensures begun { OnErr result (BreaksOff (W.contents sink.old) (W.contents sink.new) (W.waits sink.old) (W.waits sink.new) (slice_range text.now from mark.now.place ++ status_shown lines mark.now.status)) }
    ensures quiet { OnOk result (W.failures sink.new ≡ W.failures sink.old) }
    ensures blamed { OnErr result (RisesByOne (W.failures sink.old) (W.failures sink.new)) }
{
    write_piece(sink, &text[from..mark.place])?;
    write_status(sink, &mark.status, lines)
}
