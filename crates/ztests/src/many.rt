//! Objects of JSON, digests, and work on many files.

use std::test::Fail;
use zbatch::{Ended, Tally, Wording, Work, name_beside, summary_line, work_through};
use zjson::{Member, Value, digest_text, line_of};

/// Work that ends as the first letter of a name says, and counts its calls.
#[derive(Drop)]
struct ByLetter {
    calls: usize,
}

impl Work for ByLetter {
    ghost use Rattle.std.specs.Prelude.{⊤};

    ghost Does = { λ old name ended new. ⊤ };

    fn work(&mut self, name: &str) -> Ended {
        self.calls = self.calls.wrapping_add(1);
        match name.as_bytes().first() {
            Some(b'w') => Ended::Well,
            Some(b'r') => Ended::Refused,
            Some(b'f') => Ended::Failed,
            _ => Ended::Unwritten,
        }
    }
}

#[test]
fn files_are_worked_through(rt: HostRuntime) -> Result<(), Fail> {
    let mut work = ByLetter { calls: 0 };
    let tally = work_through(&mut work, &["w", "f", "r", "w"]);
    assert_eq!(rt; work.calls, 4);
    assert!(rt;
        tally
            == Tally {
                well: 2,
                refused: 1,
                failed: 1,
                unwritten: false
            }
    );
    assert_eq!(rt; tally.status(), 4);
    let cut = work_through(&mut work, &["w", "x", "r"]);
    assert_eq!(rt; work.calls, 6);
    assert!(rt;
        cut == Tally {
            well: 1,
            refused: 0,
            failed: 0,
            unwritten: true
        }
    );
    Ok(())
}

#[test]
fn many_files_are_summed_up(rt: HostRuntime) -> Result<(), Fail> {
    let some = Tally {
        well: 2,
        refused: 1,
        failed: 0,
        unwritten: false,
    };
    let line = summary_line(rt.alloc(), &some, Wording::Accepted)?;
    assert!(rt; line.as_slice() == "3 files: 2 accepted, 1 refused\n".as_bytes());
    assert_eq!(rt; some.status(), 1);
    Ok(())
}

#[test]
fn files_beside_are_named(rt: HostRuntime) -> Result<(), Fail> {
    let alloc = rt.alloc();
    assert!(rt; name_beside(alloc, "a/zork.z3", "cert")?.as_str() == "a/zork.cert");
    assert!(rt; name_beside(alloc, "\u{e9}3", "cert")?.as_str() == "\u{e9}3.cert");
    assert!(rt; name_beside(alloc, "", "cert")?.as_str() == ".cert");
    Ok(())
}

#[test]
fn objects_are_lines(rt: HostRuntime) -> Result<(), Fail> {
    let members = [
        Member {
            name: "file",
            value: Value::Text("a\"b\n\u{e9}.z3"),
        },
        Member {
            name: "release",
            value: Value::Number(88),
        },
        Member {
            name: "code",
            value: Value::Nothing,
        },
    ];
    let line = line_of(rt.alloc(), &members)?;
    let wanted = "{\"file\":\"a\\\"b\\n\u{e9}.z3\",\"release\":88,\"code\":null}\n";
    assert!(rt; line.as_slice() == wanted.as_bytes());
    Ok(())
}

/// The example of FIPS 180-4 for SHA-256.
#[test]
fn digests_are_those_of_the_standard(rt: HostRuntime) -> Result<(), Fail> {
    let text = digest_text(rt.alloc(), b"abc")?;
    assert!(rt;
        text.as_str() == "ba7816bf8f01cfea414140de5dae2223b00361a396177a9cb410ff61f20015ad"
    );
    Ok(())
}
