//! What is said of saves and of players.

/// A save from which play doesn't go on.
pub const SAVING: [(&str, &str); 11] = [
    (
        "Q1",
        "Q1: the file is no save.
Rule: a save is a FORM of the kind IFZS (Q 8). The story is told that restoring failed.
Do: name with --save the file that a save was kept in.
",
    ),
    (
        "Q2",
        "Q2: the save is cut off, or its lengths are wrong.
Rule: each chunk is as long as it says, and an odd one has a pad byte (Q 8). The story is told that restoring failed.
Do: get the save again.
",
    ),
    (
        "Q3",
        "Q3: the save lacks a part.
Rule: there are IFhd, memory and Stks, and IFhd comes first (Q 5). The story is told that restoring failed.
Do: save again; the program that wrote it doesn't keep to the standard.
",
    ),
    (
        "Q4",
        "Q4: the save has a part twice.
Rule: there is one IFhd, one UMem and one Stks (Q 5; own). The story is told that restoring failed.
Do: save again; the program that wrote it doesn't keep to the standard.
",
    ),
    (
        "Q5",
        "Q5: the save's memory is compressed.
Rule: memory is read uncompressed, as UMem, and not as CMem (Q 3; own). The story is told that restoring failed.
Do: rewrite it with unpack as one that this program restores. This program writes UMem.
",
    ),
    (
        "Q6",
        "Q6: the save is of another story.
Rule: release, serial number and checksum are the story's (Q 5). The story is told that restoring failed.
Do: play the very story that the save was made in.
",
    ),
    (
        "Q7",
        "Q7: the save's memory is too long or too short.
Rule: UMem is as long as the story's dynamic memory (Q 3). The story is told that restoring failed.
Do: play the very story that the save was made in.
",
    ),
    (
        "Q8",
        "Q8: the save's routines aren't well formed.
Rule: Stks has a first frame and at most 4,096 above it, each whole (Q 4). The story is told that restoring failed.
Do: save again, with fewer routines waiting, if another program wrote it.
",
    ),
    (
        "Q9",
        "Q9: the save doesn't stand at a save.
Rule: at the saved place stands the branch of a save instruction (Q 5; own). The story is told that restoring failed.
Do: play the very story that the save was made in.
",
    ),
    (
        "Q10",
        "Q10: the certificate doesn't describe the saved state, or lets fewer frames stand.
Rule: play by a certificate goes on where every value lies within what is stated, and no more frames stand above the first than it names, or
1,024 where it names none (own). The story is told that restoring failed.
Do: restore it without the certificate, where everything is tested; a save that was made with it is accepted.
",
    ),
    (
        "Q11",
        "Q11: memory was refused while a save was restored.
Rule: it is said as \"failed: memory\" (own).
Do: give the program more memory, and try again.
",
    ),
];

/// A save of another interpreter that isn't unpacked.
pub const UNPACKING: [(&str, &str); 9] = [
    (
        "C1",
        "C1: the file is no save.
Rule: a save is a FORM of the kind IFZS (Q 8). Nothing is written.
Do: name the file of a save, as the program wrote it that the story was played in.
",
    ),
    (
        "C2",
        "C2: the save is cut off, or its lengths are wrong.
Rule: each chunk is as long as it says, and an odd one has a pad byte that is 0 (Q 8). Nothing is written.
Do: get the save again.
",
    ),
    (
        "C3",
        "C3: the save lacks a part.
Rule: there are IFhd, memory and Stks, and IFhd comes first (Q 5). Nothing is written.
Do: save again; the program that wrote it doesn't keep to the standard.
",
    ),
    (
        "C4",
        "C4: the save has a part twice.
Rule: there is one IFhd, one memory and one Stks (Q 5; own). Nothing is written.
Do: save again; the program that wrote it doesn't keep to the standard.
",
    ),
    (
        "C5",
        "C5: the save's memory isn't compressed.
Rule: what is unpacked is CMem (Q 3; own), and this save has UMem, from which play can go on as it is. Nothing is written.
Do: restore it with play --save.
",
    ),
    (
        "C6",
        "C6: the save is of another story.
Rule: release, serial number and checksum are the story's (Q 5). Nothing is written.
Do: name the very story that the save was made in.
",
    ),
    (
        "C7",
        "C7: the save's memory ends within a run.
Rule: behind a 0 in CMem stands how many more bytes are as in the story (Q 3). Nothing is written.
Do: get the save again.
",
    ),
    (
        "C8",
        "C8: the save's memory is too long.
Rule: CMem stands for no more bytes than the story's dynamic memory has (Q 3). Nothing is written.
Do: name the very story that the save was made in.
",
    ),
    (
        "C9",
        "C9: the save's routines aren't well formed.
Rule: Stks has a first frame and at most 4,096 above it, each whole (Q 4). Nothing is written.
Do: save again, with fewer routines waiting.
",
    ),
];

/// What breaks a play off.
pub const PLAYING: [(&str, &str); 3] = [
    (
        "P1",
        "P1: input can't be read.
Rule: it is said as \"failed: read\" (own). The end of the input is none: play ends there with \"end: no input\".
Do: see where the input comes from.
",
    ),
    (
        "P2",
        "P2: output can't be written.
Rule: it is said as \"failed: write\" (own). What was written is a beginning of what the story shows.
Do: see where the output goes, to a full disk or a closed pipe.
",
    ),
    (
        "P3",
        "P3: memory was refused in play.
Rule: it is said as \"failed: memory\" (own). All that the story showed before was written.
Do: give the program more memory, and try again.
",
    ),
];

/// A file that isn't written over.
pub const KEEPING: [(&str, &str); 2] = [
    (
        "N1",
        "N1: the file that a certificate is to be kept in holds something else.
Rule: a file is written over only where it is empty, or begins as a certificate does, with ZPCC (own).
Do: name another file, or say --force where what it holds isn't needed.
",
    ),
    (
        "N2",
        "N2: the file that saves are to be kept in holds something else.
Rule: a file is written over only where it is empty, or begins as a save does, with FORM (own).
Do: name another file, or say --force where what it holds isn't needed.
",
    ),
];
