//! What is said of files of debug information.

/// A file of debug information that isn't read.
pub const DEBUGGING: [(&str, &str); 10] = [
    (
        "B1",
        "B1: the file is too long to be debug information.
Rule: a file of debug information has at most 16,777,216 bytes (own).
Do: name with --debug the file that Inform 6 writes with -k beside the story, gameinfo.dbg.
",
    ),
    (
        "B2",
        "B2: the file is no debug information of Inform 6.
Rule: its outermost element is inform-story-file, and nothing but blanks stands before its first < (own).
Do: name with --debug the file that Inform 6 writes with -k beside the story, gameinfo.dbg; what old versions of Inform write
has another form, which isn't read.
",
    ),
    (
        "B3",
        "B3: the debug information is of another version.
Rule: the version of its inform-story-file is 1.0 or 1.1 (own).
Do: compile the story anew with -k, by Inform 6.41, which writes 1.0.
",
    ),
    (
        "B4",
        "B4: a < of the debug information begins no tag, or begins a comment.
Rule: each < begins a tag, which a > ends, and none begins <!, so that comments aren't read (own).
Do: compile the story anew with -k; a tool that writes or changes the file by itself is wrong.
",
    ),
    (
        "B5",
        "B5: an element of the debug information ends or stands where it can't.
Rule: an end is that of the innermost element that is open, and behind the outermost one stands no other (own).
Do: compile the story anew with -k; a tool that writes or changes the file by itself is wrong.
",
    ),
    (
        "B6",
        "B6: the debug information is cut off.
Rule: the file doesn't end within an element (own).
Do: get the file again, or compile the story anew with -k.
",
    ),
    (
        "B7",
        "B7: a number of the debug information isn't one.
Rule: where a number has to stand, there is a decimal one below 4,294,967,296 (own).
Do: compile the story anew with -k; a tool that writes or changes the file by itself is wrong.
",
    ),
    (
        "B8",
        "B8: an & of the debug information begins no entity that is read.
Rule: an & in a name begins &amp;, &lt;, &gt;, &quot; or &apos; (own).
Do: compile the story anew with -k; a tool that writes or changes the file by itself is wrong.
",
    ),
    (
        "B9",
        "B9: a record of the debug information lacks a part.
Rule: each record that is read has its name, its number, and each other part that is asked of its kind (own).
Do: compile the story anew with -k; a tool that writes or changes the file by itself is wrong.
",
    ),
    (
        "B10",
        "B10: memory was refused while debug information was read.
Rule: it is said as \"failed: memory\" where nothing is wrong with the file itself (own).
Do: give the program more memory, and try again.
",
    ),
];
