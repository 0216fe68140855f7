//! What is said of certificates that aren't read, that don't fit a story, or that aren't found.

/// A file that is no certificate.
pub const READING: [(&str, &str); 9] = [
    (
        "K1",
        "K1: the file is no certificate.
Rule: a certificate begins with the bytes 5A 50 43 43, ZPCC (own).
Do: name the certificate behind the story, or find one anew with zpc find.
",
    ),
    (
        "K2",
        "K2: the certificate is of another version.
Rule: its fifth byte is 1, 2, 3, 4 or 5 (own).
Do: find a certificate anew with this program's zpc find.
",
    ),
    (
        "K3",
        "K3: the certificate is cut off.
Rule: no field ends behind the end of the file (own).
Do: get it again, or find one anew with zpc find.
",
    ),
    (
        "K4",
        "K4: bytes follow the certificate.
Rule: nothing stands behind the last field (own).
Do: get it again, or find one anew with zpc find.
",
    ),
    (
        "K5",
        "K5: the certificate's parts are out of order.
Rule: addresses rise, and so do the numbers of a list, and frozen ranges, which don't touch each other (own).
Do: find a certificate anew with zpc find; a tool that writes them by itself is wrong.
",
    ),
    (
        "K6",
        "K6: an interval has no number in it.
Rule: the lower end of an interval is at most its upper end (own).
Do: find a certificate anew with zpc find; a tool that writes them by itself is wrong.
",
    ),
    (
        "K7",
        "K7: a number of the certificate is above its limit.
Rule: addresses are below 131,072, a routine has at most 15 locals, a stack at most 64 slots, a limit of frames is at most 4,096 (own).
Do: find a certificate anew with zpc find; a tool that writes them by itself is wrong.
",
    ),
    (
        "K8",
        "K8: memory was refused while a certificate was read.
Rule: it is said as \"failed: memory\" where nothing is wrong with the file itself (own).
Do: give the program more memory, and try again.
",
    ),
    (
        "K9",
        "K9: a set of values is spelled in no known way.
Rule: it is of kind 0, an interval, or of kind 1, a list of 2 to 64 numbers, which isn't every number from its first to its last (own).
Do: find a certificate anew with zpc find; a tool that writes them by itself is wrong.
",
    ),
];

/// A story that a certificate doesn't fit.
pub const FITTING: [(&str, &str); 8] = [
    (
        "S1",
        "S1: the certificate is of another story.
Rule: release, serial number, checksum and loaded length are the story's (Z 11.1).
Do: name the story's own certificate, as story.cert beside story.z3. Whenever a story is compiled anew, find one anew with
zpc find.
",
    ),
    (
        "S2",
        "S2: the certificate doesn't list where play begins.
Rule: the first instruction is listed, in no routine, with an empty stack (Z 5.5).
Do: find a certificate anew with zpc find.
",
    ),
    (
        "S3",
        "S3: a routine of the certificate isn't one of the story.
Rule: a routine begins at an even place of static or high memory with the count of its locals (Z 1.2.3, 5.1, 5.2).
Do: find a certificate anew with zpc find.
",
    ),
    (
        "S4",
        "S4: a global begins with a value that the certificate doesn't state.
Rule: the loaded value of each global is one that is stated for it (Z 6.2).
Do: find a certificate anew with zpc find.
",
    ),
    (
        "S5",
        "S5: the property table of an object isn't well made, or play may spoil it.
Rule: it lies in dynamic memory, its name is as long as stated, its numbers fall from 31 to 1, and a zero byte ends it (Z 12.4).
Do: as its author, compile the story anew; objects and properties that were written by hand may overlap.
",
    ),
    (
        "S6",
        "S6: an object has a relative that isn't one.
Rule: parent, sibling and child of each object are numbers of objects, or 0 (Z 12.3).
Do: as its author, compile the story anew; see the object table, if it was written by hand.
",
    ),
    (
        "S7",
        "S7: the abbreviations aren't whole, use each other, or may be changed by play.
Rule: the 96 words at the word at 0x18 lead to texts in memory that use no abbreviation (Z 3.3).
Do: as its author, compile the story anew; a story without abbreviations has their table all the same.
",
    ),
    (
        "S8",
        "S8: globals and objects share bytes, or a frozen range isn't one.
Rule: the globals lie beside the object table, and frozen bytes in dynamic memory behind the header (Z 6.2, 12.1; own).
Do: find a certificate anew with zpc find; where it says S8 too, see the header, if it was written by hand.
",
    ),
];

/// A story for which no certificate is found.
pub const FINDING: [(&str, &str); 3] = [
    (
        "G1",
        "G1: no certificate was found.
Rule: what zpc find answers has passed its own check (own). The address is where that stopped, if it was at one.
Do: read the second line. \"no certificate: I5 at 00b99\" says that none exists that marks nothing and states nothing of globals at
single places: leave out --strict, or see zpc explain I5 and docs/AUTHORS.md. \"no certificate: S5\" says that none exists at all: see
zpc explain S5. \"not found\" says that it isn't known whether one exists; zpc list story.z3 says what is wrong with the story's listing, if that is what is at fault, as an
opcode that isn't played (zpc explain U1).
",
    ),
    (
        "G2",
        "G2: the search took too long.
Rule: zpc find visits at most 4,000,000 instructions, and does at most 400,000,000 steps of work, of which a visit may make many (own).
Do: read the second line, if it says \"no certificate\". Else bound loops and indices by constants, as docs/AUTHORS.md does.
",
    ),
    (
        "G3",
        "G3: memory was refused while a certificate was sought.
Rule: it is said as \"failed: memory\" where nothing is wrong with the story itself (own).
Do: give the program more memory, and try again.
",
    ),
];
