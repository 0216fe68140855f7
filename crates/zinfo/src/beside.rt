//! What is told of the certificate beside a story, as a line.

ghost use Rattle.std.specs.Prelude.{◌≡◌, ◌++◌, IfOk, OnOk, string_bytes};
ghost use Rattle.zinfo.specs.Beside.{beside_text, count_text, frames_text, kept_text, text_of_beside};

use crate::facts::{Beside, Kept};
use itoa::Buffer;
use std::alloc::{AllocError, Global};

/// What stands beside a story, on a line: `certificate: none`, `certificate: can't be read`, or as `certificate: refused, K3` why it is no
/// certificate of the story, or what it has. Fails only for want of memory.
pub fn text_of_beside(alloc: Global, beside: &Beside) -> Result<String, AllocError>
    ensures { IfOk result (λ text. string_bytes text ≡ text_of_beside beside.now) }
{
    let mut text = String::new(alloc);
    text.push_str("certificate: ")?;
    push_beside(*beside, &mut text)?;
    text.push_str("\n")?;
    Ok(text)
}

fn push_beside(beside: Beside, text: &mut String) -> Result<(), AllocError>
    ensures { OnOk result (string_bytes text.new ≡ string_bytes text.old ++ beside_text beside) }
{
    match beside {
        Beside::Nothing => text.push_str("none"),
        Beside::Unreadable(number) => push_count("refused, K", u64::from(number), text),
        Beside::Closed => text.push_str("can't be read"),
        Beside::OfAnother => text.push_str("refused, S1"),
        Beside::Own(kept) => push_kept(kept, text),
    }
}

/// What a certificate has.
fn push_kept(kept: Kept, text: &mut String) -> Result<(), AllocError>
    ensures { OnOk result (string_bytes text.new ≡ string_bytes text.old ++ kept_text kept) }
{
    push_count("version ", u64::from(kept.version), text)?;
    push_frames(kept.frames, text)?;
    push_count(", routines ", kept.routines as u64, text)?;
    push_count(", instructions ", kept.instructions as u64, text)?;
    push_count(", marked ", kept.marks as u64, text)?;
    push_count(", facts ", kept.facts as u64, text)?;
    Ok(())
}

/// How many frames may stand, where that is named.
fn push_frames(frames: Option<u16>, text: &mut String) -> Result<(), AllocError>
    ensures { OnOk result (string_bytes text.new ≡ string_bytes text.old ++ frames_text frames) }
{
    match frames {
        Some(frames) => push_count(", frames ", u64::from(frames), text),
        None => Ok(()),
    }
}

fn push_count(name: &str, count: u64, text: &mut String) -> Result<(), AllocError>
    ensures { OnOk result (string_bytes text.new ≡ string_bytes text.old ++ count_text name.now count) }
{
    text.push_str(name)?;
    text.push_str(Buffer::new().format(count))
}
