//! Writing a status line.

ghost use Rattle.std.specs.Prelude.{◌≡◌, ◌-◌, ◌++◌, ◌∷◌, OnErr, OnOk, replicate};
ghost use Rattle.zfault.specs.Devices.{BreaksOff, LeavesWaiting, RisesByOne};
ghost use Rattle.zscreen.specs.Rendering.{numbers, status_shown};

use crate::pieces::write_piece;
use crate::status_lines::StatusLines;
use itoa::Buffer;
use zfault::{Failed, Sink, Status};

/// Writes a status line as it is asked for.
pub(crate) fn write_status<W: Sink>(
    sink: &mut W,
    status: &Status,
    lines: StatusLines,
) -> Result<(), Failed>
    ensures ok { OnOk result (LeavesWaiting (W.contents sink.old) (W.contents sink.new) (W.waits sink.old) (W.waits sink.new) (status_shown lines status.now)) }
    ensures begun { OnErr result (BreaksOff (W.contents sink.old) (W.contents sink.new) (W.waits sink.old) (W.waits sink.new) (status_shown lines status.now)) }
    ensures quiet { OnOk result (W.failures sink.new ≡ W.failures sink.old) }
    ensures blamed { OnErr result (RisesByOne (W.failures sink.old) (W.failures sink.new)) }
{
    match lines {
        StatusLines::Hidden => write_piece(sink, b""),
        StatusLines::Bracketed => write_between(sink, b"[", status, b" | ", b"]\n"),
        StatusLines::Framed => write_between(sink, b"\x02", status, b"\x1f", b"\x03"),
    }
}

// Writes what a status line shows, between three pieces.
#[tactic(auto, using(crate::proofs::Writes::whole_after, crate::proofs::Writes::begun_after, crate::proofs::Writes::begun_before, crate::proofs::Writes::third_begun))]
fn write_between<W: Sink>(
    sink: &mut W,
    before: &[u8],
    status: &Status,
    middle: &[u8],
    behind: &[u8],
) -> Result<(), Failed>
    ensures ok { OnOk result (LeavesWaiting (W.contents sink.old) (W.contents sink.new) (W.waits sink.old) (W.waits sink.new) (before.now ++ status.now.name ++ middle.now ++ numbers status.now ++ behind.now)) }
    ensures begun { OnErr result (BreaksOff (W.contents sink.old) (W.contents sink.new) (W.waits sink.old) (W.waits sink.new) (before.now ++ status.now.name ++ middle.now ++ numbers status.now ++ behind.now)) }
    ensures quiet { OnOk result (W.failures sink.new ≡ W.failures sink.old) }
    ensures blamed { OnErr result (RisesByOne (W.failures sink.old) (W.failures sink.new)) }
{
    write_three(sink, before, status.name.as_slice(), middle)?;
    write_numbers(sink, status)?;
    write_piece(sink, behind)
}

// Writes score and moves, or hours and minutes.
fn write_numbers<W: Sink>(sink: &mut W, status: &Status) -> Result<(), Failed>
    ensures ok { OnOk result (LeavesWaiting (W.contents sink.old) (W.contents sink.new) (W.waits sink.old) (W.waits sink.new) (numbers status.now)) }
    ensures begun { OnErr result (BreaksOff (W.contents sink.old) (W.contents sink.new) (W.waits sink.old) (W.waits sink.new) (numbers status.now)) }
    ensures quiet { OnOk result (W.failures sink.new ≡ W.failures sink.old) }
    ensures blamed { OnErr result (RisesByOne (W.failures sink.old) (W.failures sink.new)) }
{
    let mut first = Buffer::new();
    let mut second = Buffer::new();
    let first = first.format(status.first).as_bytes();
    let second = second.format(status.second).as_bytes();
    if status.time {
        write_four(sink, b"Time: ", first, colon(second.len()), second)
    } else {
        write_four(sink, b"Score: ", first, b" | Moves: ", second)
    }
}

// Writes four pieces, one after another.
#[tactic(auto, using(crate::proofs::Writes::whole_after, crate::proofs::Writes::begun_after, crate::proofs::Writes::begun_before, crate::proofs::Writes::third_begun))]
fn write_four<W: Sink>(
    sink: &mut W,
    first: &[u8],
    second: &[u8],
    third: &[u8],
    fourth: &[u8],
) -> Result<(), Failed>
    ensures ok { OnOk result (LeavesWaiting (W.contents sink.old) (W.contents sink.new) (W.waits sink.old) (W.waits sink.new) (first.now ++ second.now ++ third.now ++ fourth.now)) }
    ensures begun { OnErr result (BreaksOff (W.contents sink.old) (W.contents sink.new) (W.waits sink.old) (W.waits sink.new) (first.now ++ second.now ++ third.now ++ fourth.now)) }
    ensures quiet { OnOk result (W.failures sink.new ≡ W.failures sink.old) }
    ensures blamed { OnErr result (RisesByOne (W.failures sink.old) (W.failures sink.new)) }
{
    write_three(sink, first, second, third)?;
    write_piece(sink, fourth)
}

// Writes three pieces, one after another.
#[tactic(auto, using(crate::proofs::Writes::whole_after, crate::proofs::Writes::begun_after, crate::proofs::Writes::begun_before, crate::proofs::Writes::third_begun))]
fn write_three<W: Sink>(
    sink: &mut W,
    first: &[u8],
    second: &[u8],
    third: &[u8],
) -> Result<(), Failed>
    ensures ok { OnOk result (LeavesWaiting (W.contents sink.old) (W.contents sink.new) (W.waits sink.old) (W.waits sink.new) (first.now ++ second.now ++ third.now)) }
    ensures begun { OnErr result (BreaksOff (W.contents sink.old) (W.contents sink.new) (W.waits sink.old) (W.waits sink.new) (first.now ++ second.now ++ third.now)) }
    ensures quiet { OnOk result (W.failures sink.new ≡ W.failures sink.old) }
    ensures blamed { OnErr result (RisesByOne (W.failures sink.old) (W.failures sink.new)) }
{
    write_piece(sink, first)?;
    write_piece(sink, second)?;
    write_piece(sink, third)
}

// A colon before minutes of so many places, with the zeros that they want of two.
#[tactic(auto, using(crate::proofs::Writes::zeros_left))]
fn colon(places: usize) -> &'static [u8]
    ensures { result.now ≡ 58 ∷ replicate (2 - places) 48 }
{
    &b":00"[..3 - places.min(2)]
}
