//! What is said of story files, of their instructions and texts, and of their listings.

/// A story file that isn't loaded.
pub const LOADING: [(&str, &str); 12] = [
    (
        "L1",
        "L1: the file is too short to be a story.
Rule: a story has at least the 64 bytes of its header (Z 11.1).
Do: get the file again; it may have been broken off, or be another file.
",
    ),
    (
        "L2",
        "L2: the file is too long to be a story of version 3.
Rule: a story of version 3 has at most 131,072 bytes (Z 1.1.4).
Do: see that it is a .z3 file by itself, with nothing packed around it or put behind it.
",
    ),
    (
        "L3",
        "L3: the story is of another version, or the file is no story.
Rule: byte 0 is the version, and only version 3 is read (Z 11.1).
Do: as its author, compile it with -v3; as a player, use an interpreter of its version. Glulx and Blorb files aren't read.
",
    ),
    (
        "L4",
        "L4: the length that the header states can't be.
Rule: twice the word at 0x1A is 0 or from 64 to the length of the file (Z 11.1.6; that 0 leaves it open is this program's own).
Do: get the file again; most of all a file that was cut off is refused so.
",
    ),
    (
        "L5",
        "L5: the base of static memory isn't in the story.
Rule: the word at 0x0E is from 64 to the length of the story (Z 1.1).
Do: get the file again, or compile it again; no compiler makes such a header.
",
    ),
    (
        "L6",
        "L6: the globals aren't in dynamic memory.
Rule: the 480 bytes from the word at 0x0C on lie behind the header and below static memory (Z 6.2).
Do: get the file again, or compile it again; no compiler makes such a header.
",
    ),
    (
        "L7",
        "L7: the defaults of properties aren't in dynamic memory.
Rule: the 62 bytes from the word at 0x0A on lie behind the header and below static memory (Z 12.2).
Do: get the file again, or compile it again; no compiler makes such a header.
",
    ),
    (
        "L8",
        "L8: the dictionary isn't in static memory, or ends where nothing can be read.
Rule: all of it lies from the base of static memory on and below the story's end and 65,536 (Z 13.1, 13.2).
Do: get the file again, or see what wrote the dictionary, if that was by hand.
",
    ),
    (
        "L9",
        "L9: the dictionary's entries are too short for a word.
Rule: the length that the dictionary states for an entry is at least 4 bytes (Z 13.3).
Do: get the file again, or see what wrote the dictionary, if that was by hand.
",
    ),
    (
        "L10",
        "L10: the dictionary isn't sorted.
Rule: the first 4 bytes of each entry, as a number, are at least those of the entry before (Z 13.5).
Do: get the file again, or sort the dictionary, if it was written by hand.
",
    ),
    (
        "L11",
        "L11: play would begin outside the story, or in its header.
Rule: the word at 0x06 is from 64 to below the length of the story (Z 5.5).
Do: get the file again, or compile it again; no compiler makes such a header.
",
    ),
    (
        "L12",
        "L12: memory was refused while a story was loaded.
Rule: it is said as \"failed: memory\" where nothing is wrong with the file itself (own).
Do: give the program more memory, and try again.
",
    ),
];

/// Bytes that spell no instruction.
pub const DECODING: [(&str, &str); 5] = [
    (
        "J1",
        "J1: the bytes of an instruction end with the story.
Rule: opcode, operands, store byte and branch data all lie in memory (Z 4.1).
Do: see what leads there: a jump too far, or a routine without a return at its end. It shows as U1, I1 or F2.
",
    ),
    (
        "J2",
        "J2: no such opcode.
Rule: the first byte names an opcode of version 3 (Z 14).
Do: see what leads there: play has most often run into data. It shows as U1, I1 or F2.
",
    ),
    (
        "J3",
        "J3: an opcode that this program doesn't play.
Rule: split_window, set_window, output_stream, input_stream and sound_effect are refused by their names (Z 8.6, 7, 10, 9; own).
Do: leave them out: text goes to one stream of bytes, which has no windows, streams or sounds. It shows as U1, I1 or F2.
",
    ),
    (
        "J4",
        "J4: an instruction with a wrong number of operands.
Rule: each opcode takes as many operands as the standard lists for it, je and call up to four (Z 14, 15; own).
Do: see the instruction, if it was written by hand; else play has run into data. It shows as U1, I1 or F2.
",
    ),
    (
        "J5",
        "J5: the text of a print or print_ret has no end.
Rule: of the words of a text the last one has its top bit set, before memory ends (Z 3.2, 4.8).
Do: see the text, if it was written by hand; else play has run into data. It shows as U1, I1 or F2.
",
    ),
];

/// Texts that can't be decoded.
pub const TEXTS: [(&str, &str); 3] = [
    (
        "E1",
        "E1: a text, an abbreviation that it uses, or a word that leads to one isn't whole in memory.
Rule: a text ends at a word with its top bit set, and the table at the word at 0x18 has 96 words (Z 3.2, 3.3).
Do: see where the address of the text comes from. In play it is F13, for a certificate I11 or S7.
",
    ),
    (
        "E2",
        "E2: an abbreviation uses an abbreviation.
Rule: the text of an abbreviation uses none itself (Z 3.3.1).
Do: write out what it uses. In play it is F13, for a certificate S7.
",
    ),
    (
        "E3",
        "E3: memory was refused while a text was decoded.
Rule: it is said as \"failed: memory\" where nothing is wrong with the text itself (own).
Do: give the program more memory, and try again.
",
    ),
];

/// Stories that have no listing.
pub const LISTING: [(&str, &str); 4] = [
    (
        "U1",
        "U1: play may lead to what is no instruction, or call what is no routine.
Rule: an instruction stands at each place that play may lead to, and a called routine has at most 15 locals (Z 4, 5.2).
Do: see what leads to the address: an opcode that isn't played, as output_stream (J3), a routine without a return at its
end, a jump too far, or J1, J2, J4 or J5 there.
",
    ),
    (
        "U2",
        "U2: an instruction belongs to two routines.
Rule: a listing has each instruction in one routine, or in the main code (Z 5; own).
Do: let no routine jump into another; call it.
",
    ),
    (
        "U3",
        "U3: a jump by a variable.
Rule: a listing follows each jump, so it is known how far each goes (Z 15 jump; own).
Do: choose with a switch, or call one of several routines.
",
    ),
    (
        "U4",
        "U4: memory was refused while a story was listed.
Rule: it is said as \"failed: memory\" where nothing is wrong with the story itself (own).
Do: give the program more memory, and try again.
",
    ),
];
