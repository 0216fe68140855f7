//! Writing a plain save.

ghost use Rattle.std.specs.Prelude.{◌≡◌, ◌+◌, ◌%◌, ◌<◌, ◌≤◌, ◌++◌, length, drop, replicate, IfOk};
ghost use Rattle.std.specs.Vec.{vec_len, vec_capacity};
ghost use Rattle.byteorder.specs.Endian.{big_bytes, big_number};
ghost use Rattle.zstory.specs.LoadedStory.{IsSound, static_base};
ghost use Rattle.zquetzal.specs.Saved.{origin_of};
ghost use Rattle.zquetzal.specs.Grammar.{chunk_bytes, header_bytes};
ghost use Rattle.zunpack.specs.Packing.{changed};
ghost use Rattle.zunpack.specs.PackedSave.{dynamic_of};
ghost use Rattle.zunpack.specs.View.{plain_bytes, seen_parts, told};

use crate::limits::{CHUNK_HEAD, FORM, FORM_HEAD, HEADER_LENGTH, IFHD, IFZS, STKS, UMEM};
use crate::memory::put_memory;
use crate::parts::{Parts, dynamic_memory};
use byteorder::{BigEndian, ByteOrder};
use std::alloc::{AllocError, Global};
use zquetzal::Origin;
use zstory::Story;

/// Writes bytes for which there is room.
pub(crate) fn put(out: &mut Vec<u8>, bytes: &[u8])
    requires { vec_len out.old + length bytes.now ≤ vec_capacity out.old }
    ensures items { out.new.items ≡ out.old.items ++ bytes.now }
    ensures len { vec_len out.new ≡ vec_len out.old + length bytes.now }
    ensures room { vec_capacity out.old ≤ vec_capacity out.new }
{
    if out.extend_from_slice(bytes).is_err() {
        unreachable!()
    }
}

/// Writes a chunk's letters and the count of its data.
fn put_head(out: &mut Vec<u8>, id: u32, size: usize)
    requires room { vec_len out.old + 8 ≤ vec_capacity out.old }
    requires short { size < 4294967296 }
    ensures items { out.new.items ≡ out.old.items ++ (big_bytes 4 id ++ big_bytes 4 size) }
    ensures len { vec_len out.new ≡ vec_len out.old + 8 }
    ensures room { vec_capacity out.old ≤ vec_capacity out.new }
{
    put(out, &id.to_be_bytes());
    put(out, &(size as u32).to_be_bytes());
}

/// Writes a zero behind odd data.
fn put_pad(out: &mut Vec<u8>, size: usize)
    requires { vec_len out.old + size % 2 ≤ vec_capacity out.old }
    ensures items { out.new.items ≡ out.old.items ++ replicate (size % 2) 0 }
    ensures len { vec_len out.new ≡ vec_len out.old + size % 2 }
    ensures room { vec_capacity out.old ≤ vec_capacity out.new }
{
    if size % 2 != 0 {
        put(out, &[0]);
    }
}

/// Writes `IFhd`, whose place is that of the header that was read.
fn put_header(out: &mut Vec<u8>, story: &Story, header: &[u8])
    requires room { vec_len out.old + 22 ≤ vec_capacity out.old }
    requires long { length header.now ≡ 13 }
    ensures items { out.new.items ≡ out.old.items ++ chunk_bytes (record { id = IFHD; contents = header_bytes (origin_of story.now) (big_number 3 (drop 10 header.now)) }) }
    ensures len { vec_len out.new ≡ vec_len out.old + 22 }
    ensures room { vec_capacity out.old ≤ vec_capacity out.new }
{
    let origin = Origin::of(story);
    let place = BigEndian::read_u24(&header[10..]);
    put_head(out, IFHD, HEADER_LENGTH);
    put(out, &origin.release.to_be_bytes());
    put(out, &origin.serial);
    put(out, &origin.checksum.to_be_bytes());
    put(out, &place.to_be_bytes()[1..]);
    put(out, &[0]);
}

/// Writes `UMem`.
fn put_plain(out: &mut Vec<u8>, dynamic: &[u8], packed: &[u8])
    requires room { vec_len out.old + 8 + length dynamic.now + length dynamic.now % 2 ≤ vec_capacity out.old }
    requires short { length dynamic.now < 4294967296 }
    requires fits { length (told packed.now) ≤ length dynamic.now }
    ensures items { out.new.items ≡ out.old.items ++ chunk_bytes (record { id = UMEM; contents = changed dynamic.now (told packed.now) }) }
    ensures len { vec_len out.new ≡ vec_len out.old + 8 + length dynamic.now + length dynamic.now % 2 }
    ensures room { vec_capacity out.old ≤ vec_capacity out.new }
{
    put_head(out, UMEM, dynamic.len());
    put_memory(out, dynamic, packed);
    put_pad(out, dynamic.len());
}

/// Writes `Stks`.
fn put_stacks(out: &mut Vec<u8>, stacks: &[u8])
    requires room { vec_len out.old + 8 + length stacks.now + length stacks.now % 2 ≤ vec_capacity out.old }
    requires short { length stacks.now < 4294967296 }
    ensures items { out.new.items ≡ out.old.items ++ chunk_bytes (record { id = STKS; contents = stacks.now }) }
{
    put_head(out, STKS, stacks.len());
    put(out, stacks);
    put_pad(out, stacks.len());
}

/// How many bytes the chunks of a plain save take, whose data are so many.
fn body_length(memory: usize, stacks: usize) -> usize
    requires memory { memory ≤ 131072 }
    requires stacks { stacks ≤ 537149476 }
    ensures { result ≡ 38 + memory + memory % 2 + stacks + stacks % 2 }
{
    let header = CHUNK_HEAD + HEADER_LENGTH + HEADER_LENGTH % 2;
    header + CHUNK_HEAD + memory + memory % 2 + CHUNK_HEAD + stacks + stacks % 2
}

/// Writes all of the save, for which there is room.
fn put_text(out: &mut Vec<u8>, story: &Story, parts: Parts<'_>, dynamic: &[u8], body: usize)
    requires dynamic { dynamic.now ≡ dynamic_of story.now }
    requires sound { IsSound story.now.memory }
    requires body { body ≡ 38 + length dynamic.now + length dynamic.now % 2 + length parts.stacks.now + length parts.stacks.now % 2 }
    requires room { vec_len out.old + 12 + body ≤ vec_capacity out.old }
    requires long { length parts.header.now ≡ 13 }
    requires few { length dynamic.now ≤ 131072 }
    requires short { length parts.stacks.now ≤ 537149476 }
    requires fits { length (told parts.packed.now) ≤ length dynamic.now }
    ensures { out.new.items ≡ out.old.items ++ plain_bytes story.now (seen_parts parts.entry) }
{
    put_head(out, FORM, 4 + body);
    put(out, &IFZS.to_be_bytes());
    put_header(out, story, parts.header);
    put_plain(out, dynamic, parts.packed);
    put_stacks(out, parts.stacks);
}

/// The plain save that is made of the parts of a compressed one. Want of memory is the only error.
pub(crate) fn plain_text(
    alloc: Global,
    story: &Story,
    parts: Parts<'_>,
) -> Result<Vec<u8>, AllocError>
    requires long { length parts.header.now ≡ 13 }
    requires short { length parts.stacks.now ≤ 537149476 }
    requires fits { length (told parts.packed.now) ≤ static_base story.now }
    ensures { IfOk result (λ text. text.items ≡ plain_bytes story.now (seen_parts parts.entry)) }
{
    let dynamic = dynamic_memory(story);
    let body = body_length(dynamic.len(), parts.stacks.len());
    let mut text = Vec::with_capacity(alloc, FORM_HEAD + body)?;
    put_text(&mut text, story, parts, dynamic, body);
    Ok(text)
}
