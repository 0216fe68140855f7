//! Facts of a small story.

use std::test::Fail;
use zinfo::{Checksum, info, text_of_info};
use zstory::Story;

/// Where the code of the story begins.
const CODE: usize = 0x324;

/// A story of two instructions, `save` and `quit`, with no object and no word.
fn small_story() -> [u8; 808] {
    let mut file = [0; 808];
    let header = [
        0x03, 0x00, 0x00, 0x01, 0x03, 0x24, 0x03, 0x24, 0x03, 0x20, 0x02, 0x20, 0x00, 0x40, 0x02,
        0x5e, 0x00, 0x00, 0x32, 0x36, 0x30, 0x31, 0x30, 0x31, 0x02, 0x5e, 0x01, 0x94, 0x39, 0x6e,
    ];
    file[..30].copy_from_slice(&header);
    for word in 0..96 {
        file[0x25e + 2 * word] = 0x01;
        file[0x25f + 2 * word] = 0x8f;
    }
    file[0x31e..0x324].copy_from_slice(&[0x94, 0xa5, 0x00, 0x04, 0x00, 0x00]);
    file[CODE..0x327].copy_from_slice(&[0xb5, 0xc2, 0xba]);
    file
}

#[test]
fn facts_are_told(rt: HostRuntime) -> Result<(), Fail> {
    let alloc = rt.alloc();
    let story = Story::load(alloc, &small_story())?;
    let facts = info(alloc, &story)?;
    assert_eq!(rt; facts.release, 1);
    assert!(rt; facts.checksum == Checksum::Right(0x396e));
    let text = text_of_info(alloc, &facts)?;
    assert!(rt;
        text.as_str()
            == "release: 1\nserial: 260101\nlength: 808\nchecksum: 396e, right\nobjects: 0\nwords: 0\nroutines: 0\ninstructions: 2\nopcodes not played: none\n"
    );
    Ok(())
}
