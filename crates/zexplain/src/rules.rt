//! What is said of instructions that break a rule of certificates.

/// A rule that is broken at an instruction.
pub const RULES: [(&str, &str); 18] = [
    (
        "I1",
        "I1: no instruction stands there.
Rule: an instruction decodes, and begins in static or high memory, which no play changes (Z 1.1, 4).
Do: see what leads to the address, and zpc explain J1 to J5; opcodes of windows, streams and sounds aren't played.
",
    ),
    (
        "I2",
        "I2: a word may be taken off an empty stack.
Rule: every operand that takes a word off the stack finds one (Z 6.3).
Do: see assembly lines that use sp, ret_popped, pop and pull: what is taken has to be pushed in the same routine.
",
    ),
    (
        "I3",
        "I3: a local variable may not be there.
Rule: a variable that is read or written is the stack, a local up to the routine's count, or a global (Z 6.2, 5.2).
Do: where a variable is named by a number, as in @inc [ptr], let that be a constant.
",
    ),
    (
        "I4",
        "I4: what follows the instruction isn't known well enough.
Rule: what may follow is listed, in the same routine, with as many slots and values within those stated; a jump is by one
known number (Z 4.7, 15 jump).
Do: in a story, leave each loop with as many words on the stack as it began; no jump by a variable. Else find the certificate
anew.
",
    ),
    (
        "I5",
        "I5: an operand that has to be an object may be none, most often 0.
Rule: each value of such an operand is 1 to the count of the story's objects (Z 12.3, 15).
Do: test the local that is then used: p = parent(o); if (p == 0) rfalse; o = p; and keep no 0 or -1 in a global that
names an object. Of a table: o = things-->k; if (o >= First && o <= Last) print (object) o;
",
    ),
    (
        "I6",
        "I6: the number of an attribute may be above 31.
Rule: each value of an operand that is an attribute is 0 to 31 (Z 12.3.1).
Do: name attributes by constants, or bound the local that holds one by constants at both ends.
",
    ),
    (
        "I7",
        "I7: an object may not have the property, or the property not fit.
Rule: get_prop asks for 1 to 31 and for no property of over two bytes; put_prop writes one that is there, of at most two;
get_next_prop asks for 0 or one that is there (Z 12.4, 15).
Do: give the property to every object that may be met there; instead of get_next_prop count from 31 to 1 with get_prop_addr.
",
    ),
    (
        "I8",
        "I8: a divisor may be 0.
Rule: no value of a divisor is 0 (Z 15 div, mod).
Do: divide behind if (b > 0), and once more behind if (b < 0): a test for 0 alone leaves both sides open.
",
    ),
    (
        "I9",
        "I9: a store may change what no store may change.
Rule: what is stored to is open: no header but Flags 2, no globals, object tables, abbreviations, frozen bytes or static
memory (Z 1.1; own).
Do: bound the index by constants right before the store, at both ends if it comes from outside.
",
    ),
    (
        "I10",
        "I10: a load may read outside the story.
Rule: each byte that a load may read lies below the story's end and 65,536 (Z 1.1, 15 loadw, loadb, get_prop_len).
Do: bound the index by constants right before the load; neither a count byte of a buffer nor a sentinel is a bound.
",
    ),
    (
        "I11",
        "I11: a text that is printed may not be one.
Rule: at each address that may be printed stands a text with an end, and no play changes it (Z 3.2, 15).
Do: print addresses from constants; test what is read of a table, and a word of the dictionary, at both ends:
s = names-->k; if (s >= First && s <= Last) print (string) s; d = 0-->4; if (w > d && w < d + 900) print (address) w;
",
    ),
    (
        "I12",
        "I12: a call may be of what is no routine, or hand over what the routine doesn't take.
Rule: each value that is called is 0 or a listed routine, whose locals take the arguments (Z 6.4).
Do: call routines by name, and choose among them by switch: between two routines of a table lie addresses of none.
",
    ),
    (
        "I13",
        "I13: what is returned isn't known, or there is nothing to return to.
Rule: the main code doesn't return, and what a routine returns is a value that is stated for it (Z 5.5, 6.4).
Do: in a story, end the main routine with quit. Else find the certificate anew.
",
    ),
    (
        "I14",
        "I14: the buffers of a read aren't known, too small, or may not be written.
Rule: each is at one known address, and its first byte, the size, never changes; a text takes at least one letter, a parse one
word (Z 15 sread; own).
Do: initialise the sizes and never store to them: Array text -> 60 0 0 ..; instead of text->0 = 60;
",
    ),
    (
        "I15",
        "I15: a variable that is named by a number isn't known.
Rule: an operand that names a variable is one number, at most 255 (Z 15 inc, dec, store, load, pull; own).
Do: assign the number to a local right before it is used: ptr = 2; @inc [ptr];
",
    ),
    (
        "I16",
        "I16: a global may get a value that the certificate doesn't state.
Rule: what is stored to a global is a value that is stated for it (own).
Do: find the certificate anew with zpc find.
",
    ),
    (
        "I17",
        "I17: the stack of a routine may grow beyond 64 slots.
Rule: behind each instruction there are at most 64 words on the routine's stack (own).
Do: keep values in locals or arrays, and push nothing in a loop.
",
    ),
    (
        "I18",
        "I18: the status line may show what is no object.
Rule: the first global is the number of an object, or 0, where a line is read or the status shown (Z 8.2.2.1).
Do: keep the player's place in the first global, and nothing else; begin it with an object.
",
    ),
];
