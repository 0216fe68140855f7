//! Writing a save.

ghost use Rattle.std.specs.Prelude.{◌≡◌, ◌+◌, ◌-◌, ◌*◌, ◌%◌, ◌^◌, ◌<◌, ◌≤◌, ◌++◌, length, IfOk, OnOk, OnErr};
ghost use Rattle.std.specs.Vec.{vec_len, vec_capacity};
ghost use Rattle.byteorder.specs.Endian.{big_bytes};
ghost use Rattle.zquetzal.specs.Saved.{IsFrame};
ghost use Rattle.zquetzal.specs.Grammar.{chunk_bytes, header_bytes, words_bytes, frame_head, frame_bytes, frames_bytes, stacks_chunk, save_text};
ghost use Rattle.zquetzal.specs.View.{given_frame};

use crate::limits::{
    CHUNK_HEAD, FORM, FORM_HEAD, FRAME_HEAD, HEADER_LENGTH, IFHD, IFZS, STKS, UMEM,
};
use crate::origin::Origin;
use crate::parts::{FrameParts, SaveParts};
use std::alloc::{AllocError, Global};

/// Writes bytes for which there is room.
fn put(out: &mut Vec<u8>, bytes: &[u8])
    requires { vec_len out.old + length bytes.now ≤ vec_capacity out.old }
    ensures items { out.new.items ≡ out.old.items ++ bytes.now }
    ensures len { vec_len out.new ≡ vec_len out.old + length bytes.now }
    ensures room { vec_capacity out.old ≤ vec_capacity out.new }
{
    if out.extend_from_slice(bytes).is_err() {
        unreachable!()
    }
}

/// Writes a chunk's letters and the count of its data.
fn put_head(out: &mut Vec<u8>, id: u32, size: usize)
    requires room { vec_len out.old + 8 ≤ vec_capacity out.old }
    requires short { size < 4294967296 }
    ensures items { out.new.items ≡ out.old.items ++ (big_bytes 4 id ++ big_bytes 4 size) }
    ensures len { vec_len out.new ≡ vec_len out.old + 8 }
    ensures room { vec_capacity out.old ≤ vec_capacity out.new }
{
    put(out, &id.to_be_bytes());
    put(out, &(size as u32).to_be_bytes());
}

/// Writes a chunk, with a zero behind odd data.
fn put_chunk(out: &mut Vec<u8>, id: u32, contents: &[u8])
    requires room { vec_len out.old + length (chunk_bytes (record { id = id; contents = contents.now })) ≤ vec_capacity out.old }
    requires short { length contents.now < 4294967296 }
    ensures items { out.new.items ≡ out.old.items ++ chunk_bytes (record { id = id; contents = contents.now }) }
    ensures len { vec_len out.new ≡ vec_len out.old + length (chunk_bytes (record { id = id; contents = contents.now })) }
    ensures room { vec_capacity out.old ≤ vec_capacity out.new }
{
    put_head(out, id, contents.len());
    put(out, contents);
    if contents.len() % 2 != 0 {
        put(out, &[0]);
    }
}

/// Writes the data of `IFhd`.
fn put_header_data(out: &mut Vec<u8>, origin: &Origin, place: u32)
    requires { vec_len out.old + 13 ≤ vec_capacity out.old }
    ensures items { out.new.items ≡ out.old.items ++ header_bytes origin.now place }
    ensures len { vec_len out.new ≡ vec_len out.old + 13 }
    ensures room { vec_capacity out.old ≤ vec_capacity out.new }
{
    put(out, &origin.release.to_be_bytes());
    put(out, &origin.serial);
    put(out, &origin.checksum.to_be_bytes());
    put(out, &place.to_be_bytes()[1..]);
}

/// Writes `IFhd`.
fn put_header(out: &mut Vec<u8>, origin: &Origin, place: u32)
    requires { vec_len out.old + 22 ≤ vec_capacity out.old }
    ensures items { out.new.items ≡ out.old.items ++ chunk_bytes (record { id = IFHD; contents = header_bytes origin.now place }) }
    ensures len { vec_len out.new ≡ vec_len out.old + 22 }
    ensures room { vec_capacity out.old ≤ vec_capacity out.new }
{
    put_head(out, IFHD, HEADER_LENGTH);
    put_header_data(out, origin, place);
    put(out, &[0]);
}

fn put_words(out: &mut Vec<u8>, words: &[u16])
    requires { vec_len out.old + 2 * length words.now ≤ vec_capacity out.old }
    ensures items { out.new.items ≡ out.old.items ++ words_bytes words.now }
    ensures len { vec_len out.new ≡ vec_len out.old + 2 * length words.now }
    ensures room { vec_capacity out.old ≤ vec_capacity out.new }
{
    for word in words {
        put(out, &word.to_be_bytes());
    }
}

/// The bits of a frame's mask of arguments: one for each that was supplied, from bit 0 up.
fn mask_of(supplied: u8) -> u8
    requires { supplied ≤ 3 }
    ensures { result ≡ 2 ^ supplied - 1 }
{
    (1 << supplied) - 1
}

/// Writes a frame's head.
fn put_frame_head(out: &mut Vec<u8>, frame: FrameParts<'_>)
    requires room { vec_len out.old + 8 ≤ vec_capacity out.old }
    requires frame { IsFrame (given_frame frame) }
    ensures items { out.new.items ≡ out.old.items ++ frame_head (given_frame frame.entry) }
    ensures len { vec_len out.new ≡ vec_len out.old + 8 }
    ensures room { vec_capacity out.old ≤ vec_capacity out.new }
{
    put(out, &frame.return_place.to_be_bytes()[1..]);
    let locals = frame.locals.len() as u8;
    put(out, &[locals, frame.result, mask_of(frame.supplied)]);
    put(out, &(frame.stack.len() as u16).to_be_bytes());
}

fn put_frame(out: &mut Vec<u8>, frame: FrameParts<'_>)
    requires room { vec_len out.old + length (frame_bytes (given_frame frame)) ≤ vec_capacity out.old }
    requires frame { IsFrame (given_frame frame) }
    ensures items { out.new.items ≡ out.old.items ++ frame_bytes (given_frame frame.entry) }
    ensures len { vec_len out.new ≡ vec_len out.old + length (frame_bytes (given_frame frame.entry)) }
    ensures room { vec_capacity out.old ≤ vec_capacity out.new }
{
    put_frame_head(out, frame);
    put_words(out, frame.locals);
    put_words(out, frame.stack);
}

/// How many bytes the frames take.
fn frames_length<S: SaveParts>(parts: &S) -> usize
    ensures value { result ≡ length (frames_bytes (S.saved parts.now).frames) }
    ensures most { result ≤ 537149476 }
{
    let mut bytes = 0;
    for number in 0..parts.frame_count() {
        let frame = parts.frame(number);
        bytes += FRAME_HEAD + 2 * (frame.locals.len() + frame.stack.len());
    }
    bytes
}

/// Writes all frames.
fn put_frames<S: SaveParts>(out: &mut Vec<u8>, parts: &S)
    requires { vec_len out.old + length (frames_bytes (S.saved parts.now).frames) ≤ vec_capacity out.old }
    ensures items { out.new.items ≡ out.old.items ++ frames_bytes (S.saved parts.now).frames }
    ensures len { vec_len out.new ≡ vec_len out.old + length (frames_bytes (S.saved parts.now).frames) }
    ensures room { vec_capacity out.old ≤ vec_capacity out.new }
{
    for number in 0..parts.frame_count() {
        put_frame(out, parts.frame(number));
    }
}

/// Writes `Stks`, whose data are so many bytes.
fn put_stacks<S: SaveParts>(out: &mut Vec<u8>, parts: &S, size: usize)
    requires room { vec_len out.old + length (chunk_bytes (stacks_chunk (S.saved parts.now))) ≤ vec_capacity out.old }
    requires size { size ≡ length (frames_bytes (S.saved parts.now).frames) }
    requires short { size < 4294967296 }
    ensures items { out.new.items ≡ out.old.items ++ chunk_bytes (stacks_chunk (S.saved parts.now)) }
{
    put_head(out, STKS, size);
    put_frames(out, parts);
}

/// How many bytes the chunks take, whose data are so many.
fn body_length(memory: usize, stacks: usize) -> usize
    requires memory { memory < 65536 }
    requires stacks { stacks ≤ 537149476 }
    ensures { result ≡ 38 + memory + memory % 2 + stacks }
{
    let header = CHUNK_HEAD + HEADER_LENGTH + HEADER_LENGTH % 2;
    header + CHUNK_HEAD + memory + memory % 2 + CHUNK_HEAD + stacks
}

/// Writes all of a save, for which there is room.
fn put_text<S: SaveParts>(out: &mut Vec<u8>, parts: &S, origin: &Origin, body: usize, stacks: usize)
    requires origin { origin.now ≡ S.origin parts.now }
    requires room { vec_len out.old + length (save_text (S.origin parts.now) (S.saved parts.now)) ≤ vec_capacity out.old }
    requires stacks { stacks ≡ length (frames_bytes (S.saved parts.now).frames) }
    requires short { stacks ≤ 537149476 }
    requires body { length (save_text (S.origin parts.now) (S.saved parts.now)) ≡ 12 + body }
    requires size { body ≡ 38 + length (S.saved parts.now).memory + length (S.saved parts.now).memory % 2 + stacks }
    ensures { out.new.items ≡ out.old.items ++ save_text (S.origin parts.now) (S.saved parts.now) }
{
    let memory = parts.memory();
    put_head(out, FORM, 4 + body);
    put(out, &IFZS.to_be_bytes());
    put_header(out, origin, parts.place());
    put_chunk(out, UMEM, memory);
    put_stacks(out, parts, stacks);
}

/// Writes a save behind the bytes that are there, or with no memory for it nothing. All memory is taken before the first byte is
/// written, and wanted only where there isn't room for the save.
pub fn write_to<S: SaveParts>(out: &mut Vec<u8>, parts: &S) -> Result<(), AllocError>
    ensures ok { OnOk result (out.new.items ≡ out.old.items ++ save_text (S.origin parts.now) (S.saved parts.now)) }
    ensures err { OnErr result (out.new.items ≡ out.old.items) }
    ensures full { OnErr result (vec_capacity out.old < vec_len out.old + length (save_text (S.origin parts.now) (S.saved parts.now))) }
{
    let origin = parts.origin();
    let stacks = frames_length(parts);
    let body = body_length(parts.memory().len(), stacks);
    out.reserve(FORM_HEAD + body)?;
    put_text(out, parts, &origin, body, stacks);
    Ok(())
}

/// The bytes of a save: `IFhd`, `UMem` and `Stks`.
pub fn write<S: SaveParts>(alloc: Global, parts: &S) -> Result<Vec<u8>, AllocError>
    ensures { IfOk result (λ text. text.items ≡ save_text (S.origin parts.now) (S.saved parts.now)) }
{
    let mut text = Vec::new(alloc);
    write_to(&mut text, parts)?;
    Ok(text)
}
