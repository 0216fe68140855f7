//! How a heading is drawn at the top of a screen.

ghost use Rattle.std.specs.Prelude.{◌≡◌, ◌≤◌, ◌++◌, ◌∷◌, [], OnErr, OnOk, length, replicate, take};
ghost use Rattle.std.specs.Io.KnownBytes.{Appends};
ghost use Rattle.zfault.specs.Devices.{AppendsBeginning, CountsFailure};
ghost use Rattle.zfront.specs.Headings.{apart, both_shown, drawing, heading_line};

use crate::side::Title;
use zfault::{Failed, Sink, write_whole};

/// What is written in front of the line: keep the cursor's place, scroll from line 2 on, go to the beginning of line 1, reverse video.
const LINE_BEGUN: [u8; 16] = *b"\x1b7\x1b[2r\x1b[1;1H\x1b[7m";

/// What is written behind it: no reverse video, back to that place.
const LINE_ENDED: [u8; 6] = *b"\x1b[0m\x1b8";

/// Some spaces.
const SPACES: [u8; 64] = [b' '; 64];

/// Draws a heading in line 1 of a screen with so many columns, at least 2.
pub(crate) fn draw<W: Sink>(below: &mut W, title: &Title, width: usize) -> Result<(), Failed>
    ensures ok { OnOk result (Appends (W.contents below.old) (W.contents below.new) (drawing title.now.name title.now.right width)) }
    ensures err { OnErr result (AppendsBeginning (W.contents below.old) (W.contents below.new) (drawing title.now.name title.now.right width)) }
    ensures counts { CountsFailure (W.failures below.old) (W.failures below.new) result }
{
    write_whole(below, &LINE_BEGUN)?;
    write_line(below, title, width)?;
    write_whole(below, &LINE_ENDED)?;
    Ok(())
}

/// Writes the line: both sides with a space at each end.
fn write_line<W: Sink>(below: &mut W, title: &Title, width: usize) -> Result<(), Failed>
    ensures ok { OnOk result (Appends (W.contents below.old) (W.contents below.new) (heading_line title.now.name title.now.right width)) }
    ensures err { OnErr result (AppendsBeginning (W.contents below.old) (W.contents below.new) (heading_line title.now.name title.now.right width)) }
    ensures counts { CountsFailure (W.failures below.old) (W.failures below.new) result }
{
    write_whole(below, &SPACES[..1])?;
    write_sides(below, title, width)?;
    write_whole(below, &SPACES[..1])?;
    Ok(())
}

/// Writes both sides, as much of them as there is room for, with spaces between them.
fn write_sides<W: Sink>(below: &mut W, title: &Title, width: usize) -> Result<(), Failed>
    ensures ok { OnOk result (Appends (W.contents below.old) (W.contents below.new) (both_shown title.now.name title.now.right width)) }
    ensures err { OnErr result (AppendsBeginning (W.contents below.old) (W.contents below.new) (both_shown title.now.name title.now.right width)) }
    ensures counts { CountsFailure (W.failures below.old) (W.failures below.new) result }
{
    let right = title.right.printable();
    let right = front(right.bytes(), width.saturating_sub(2));
    let name = title.name.printable();
    let name = front(
        name.bytes(),
        width.saturating_sub(3).saturating_sub(right.len()),
    );
    let gap = width
        .saturating_sub(2)
        .saturating_sub(name.len())
        .saturating_sub(right.len());
    write_apart(below, name, gap, right)
}

/// Writes two sides with so many spaces between them.
fn write_apart<W: Sink>(below: &mut W, name: &[u8], gap: usize, right: &[u8]) -> Result<(), Failed>
    ensures ok { OnOk result (Appends (W.contents below.old) (W.contents below.new) (apart name.now gap right.now)) }
    ensures err { OnErr result (AppendsBeginning (W.contents below.old) (W.contents below.new) (apart name.now gap right.now)) }
    ensures counts { CountsFailure (W.failures below.old) (W.failures below.new) result }
{
    write_whole(below, name)?;
    write_spaces(below, gap)?;
    write_whole(below, right)?;
    Ok(())
}

/// As many bytes as there is room for.
fn front(bytes: &[u8], room: usize) -> &[u8]
    ensures { result.now ≡ take room bytes.now }
{
    &bytes[..bytes.len().min(room)]
}

/// Writes so many spaces.
fn write_spaces<W: Sink>(below: &mut W, count: usize) -> Result<(), Failed>
    ensures ok { OnOk result (Appends (W.contents below.old) (W.contents below.new) (replicate count 32)) }
    ensures err { OnErr result (AppendsBeginning (W.contents below.old) (W.contents below.new) (replicate count 32)) }
    ensures counts { CountsFailure (W.failures below.old) (W.failures below.new) result }
{
    let mut left = count;
    while left > 0 {
        let some = left.min(SPACES.len());
        write_whole(below, &SPACES[..some])?;
        left -= some;
    }
    Ok(())
}
