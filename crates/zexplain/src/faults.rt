//! What is said of faults.

/// A fault that a story met in play.
pub const FAULTS: [(&str, &str); 16] = [
    (
        "F1",
        "F1: play came to a place that isn't in its scope.
Rule: the place of each instruction lies in the story, or in the listing that was handed over (own).
Do: as its author, see what jumps there; as a player, report it with your last lines.
",
    ),
    (
        "F2",
        "F2: play came to what is no instruction.
Rule: the bytes at each place of play spell an instruction that is played (Z 4, 14).
Do: as its author, see what leads there, and zpc explain J1 to J5: it may be an opcode that isn't played, as output_stream
(J3); as a player, report it with your last lines.
",
    ),
    (
        "F3",
        "F3: a call of what is no routine.
Rule: a call is of 0 or of a routine: a count of at most 15 locals, and their words (Z 5.2, 6.4).
Do: as its author, see where the called value comes from; zpc find shows the rule I12.
",
    ),
    (
        "F4",
        "F4: a word was taken off an empty stack.
Rule: each routine has a stack of its own, which begins empty (Z 6.3).
Do: as its author, see the assembly lines around the address; zpc find shows the rule I2.
",
    ),
    (
        "F5",
        "F5: a local variable that the routine doesn't have.
Rule: a routine has the locals that its first byte counts (Z 5.2).
Do: as its author, see the assembly lines around the address; zpc find shows the rule I3.
",
    ),
    (
        "F6",
        "F6: an object that isn't there, most often object 0.
Rule: an operand that is an object is 1 to the count of the story's objects (Z 12.3, 15).
Do: as its author, test for 0 before; zpc find shows the rule I5. As a player, report it with your last lines.
",
    ),
    (
        "F7",
        "F7: an attribute above 31.
Rule: version 3 has the attributes 0 to 31 (Z 12.3.1).
Do: as its author, see where the number comes from; zpc find shows the rule I6.
",
    ),
    (
        "F8",
        "F8: a property that isn't there.
Rule: a property number is 1 to 31, and put_prop and get_next_prop ask for one that the object has (Z 12.4, 15).
Do: as its author, give the object the property; zpc find shows the rule I7.
",
    ),
    (
        "F9",
        "F9: a property of more than two bytes as a number.
Rule: get_prop and put_prop are of properties with one or two bytes (Z 15).
Do: as its author, read its parts by get_prop_addr; zpc find shows the rule I7.
",
    ),
    (
        "F10",
        "F10: a division by 0.
Rule: the divisor of div and mod isn't 0 (Z 15).
Do: as its author, test the divisor before; zpc find shows the rule I8.
",
    ),
    (
        "F11",
        "F11: a store where nothing may be stored.
Rule: only dynamic memory is written, and of the header Flags 2 alone (Z 1.1, 11.1).
Do: as its author, bound the index; zpc find shows the rule I9.
",
    ),
    (
        "F12",
        "F12: a load from outside the story.
Rule: only bytes below the story's end and 65,536 are read (Z 1.1).
Do: as its author, bound the index; zpc find shows the rule I10.
",
    ),
    (
        "F13",
        "F13: a text that can't be decoded.
Rule: a printed text ends in memory, and its abbreviations use none (Z 3.2, 3.3).
Do: as its author, see where the address comes from; zpc find shows the rule I11.
",
    ),
    (
        "F14",
        "F14: a buffer of a read with no room.
Rule: the text buffer takes at least one letter, and the parse buffer at least one word (Z 15 sread; own).
Do: as its author, give both their sizes; zpc find shows the rule I14.
",
    ),
    (
        "F15",
        "F15: a return from the main code.
Rule: the first instruction isn't in a routine, and there is nothing to return to (Z 5.5).
Do: as its author, end it with quit; zpc find shows the rule I13.
",
    ),
    (
        "F16",
        "F16: a variable above 255.
Rule: an operand that names a variable is 0 to 255 (Z 4.2.2, 15).
Do: as its author, see where the number comes from; zpc find shows the rule I15.
",
    ),
];
