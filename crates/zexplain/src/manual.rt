//! The manual page. tests/manual.py writes this file: docs/zpc.1 is the same page.

/// The manual page, in the language of roff, as `zpc help man` prints it.
pub const MANUAL: &str =
    ".\\\" tests/manual.py writes this page of what the program says for --help.
.TH ZPC 1 \"\" \"zpc 0.1.0\" \"User Commands\"
.SH NAME
zpc \\- lists, checks and plays Z\\-machine version 3 stories, and finds certificates
.SH SYNOPSIS
.nf
\\fBzpc\\fR \\fBlist\\fR [\\fIOPTIONS\\fR] \\fISTORY\\fR [\\fICERT\\fR]
\\fBzpc\\fR \\fBfind\\fR [\\fIOPTIONS\\fR] \\fIFILE\\fR\\&...
\\fBzpc\\fR \\fBcheck\\fR [\\fIOPTIONS\\fR] \\fIFILE\\fR\\&...
\\fBzpc\\fR \\fBshow\\fR [\\fIOPTIONS\\fR] \\fISTORY\\fR \\fICERT\\fR [\\fIADDRESS\\fR]
\\fBzpc\\fR \\fBplay\\fR [\\fIOPTIONS\\fR] \\fISTORY\\fR [\\fICERT\\fR]
\\fBzpc\\fR \\fBinfo\\fR [\\fIOPTIONS\\fR] \\fISTORY\\fR
\\fBzpc\\fR \\fBexplain\\fR [\\fIOPTIONS\\fR] [\\fICODE\\fR]
\\fBzpc\\fR \\fBunpack\\fR [\\fIOPTIONS\\fR] \\fISTORY\\fR \\fISAVE\\fR \\fIOUT\\fR
\\fBzpc\\fR \\fBhelp\\fR [\\fICOMMAND\\fR]
.fi
.SH DESCRIPTION
.PP
A certificate is a file that says which values a play of a story may meet. It is found once, and may come from anyone: whoever has it checks it. A play of a story that is accepted with it never meets a fault, but where it marks instructions.
.PP
check and find take many stories: the certificate of story.z3 is story.cert, and where two files are named of which the second ends in neither .z3 nor .Z3, that is the certificate\\(aqs. With \\-\\-json a command answers with one object of JSON a line.
.PP
zpc help man prints the manual page.
.SH COMMANDS
.SS zpc list
Lists the instructions of a story, or of a certificate.
.TP
\\fISTORY\\fR
The story\\(aqs file
.TP
[\\fICERT\\fR]
The certificate\\(aqs file
.TP
\\fB\\-\\-json\\fR
Answers with one object of JSON a line
.TP
\\fB\\-\\-debug\\fR \\fIFILE\\fR
Tells the source\\(aqs lines and names by this file, which Inform 6 writes with \\-k
.TP
\\fB\\-h,\\fR \\fB\\-\\-help\\fR
Print help
.SS zpc find
Finds certificates of stories.
.PP
Where no CERT is named, the certificate\\(aqs name is the story\\(aqs with .cert for .z3. Two files of which the second ends in neither .z3 nor .Z3 are a story\\(aqs and its certificate\\(aqs.
.TP
\\fIFILE\\fR\\&...
Stories\\(aq files, or a story\\(aqs file and its certificate\\(aqs
.TP
\\fB\\-o,\\fR \\fB\\-\\-output\\fR \\fICERT\\fR
The file that the certificate of one story is kept in
.TP
\\fB\\-\\-frames\\fR \\fIN\\fR
The most frames above the first, at most 4096
.TP
\\fB\\-\\-strict\\fR
Finds only a certificate that marks no instruction
.TP
\\fB\\-\\-places\\fR
Lists the instructions that are marked, and why
.TP
\\fB\\-\\-force\\fR
Writes over a file that holds something else
.TP
\\fB\\-\\-json\\fR
Answers with one object of JSON a line
.TP
\\fB\\-\\-debug\\fR \\fIFILE\\fR
Tells the source\\(aqs lines and names by this file, which Inform 6 writes with \\-k
.TP
\\fB\\-h,\\fR \\fB\\-\\-help\\fR
Print help
.SS zpc check
Checks certificates of stories.
.PP
Where no CERT is named, the certificate\\(aqs name is the story\\(aqs with .cert for .z3. Two files of which the second ends in neither .z3 nor .Z3 are a story\\(aqs and its certificate\\(aqs.
.TP
\\fIFILE\\fR\\&...
Stories\\(aq files, or a story\\(aqs file and its certificate\\(aqs
.TP
\\fB\\-\\-json\\fR
Answers with one object of JSON a line
.TP
\\fB\\-\\-debug\\fR \\fIFILE\\fR
Tells the source\\(aqs lines and names by this file, which Inform 6 writes with \\-k
.TP
\\fB\\-h,\\fR \\fB\\-\\-help\\fR
Print help
.SS zpc show
Shows what a certificate says.
.TP
\\fISTORY\\fR
The story\\(aqs file
.TP
\\fICERT\\fR
The certificate\\(aqs file
.TP
[\\fIADDRESS\\fR]
The address of an instruction, as zpc list writes it: 00325
.TP
\\fB\\-\\-debug\\fR \\fIFILE\\fR
Tells the source\\(aqs lines and names by this file, which Inform 6 writes with \\-k
.TP
\\fB\\-h,\\fR \\fB\\-\\-help\\fR
Print help
.SS zpc play
Plays a story, with a certificate or without.
.PP
Where no CERT is named, the story is played by the certificate beside it, whose name is the story\\(aqs with .cert for .z3, if the story is accepted with that. One that isn\\(aqt used is told of first.
.PP
With \\-\\-lenient everything is tested, and no certificate beside the story is looked for; with a CERT the story has to be accepted all the same. What is done in the place of each fault is in docs/MACHINE.md.
.TP
\\fISTORY\\fR
The story\\(aqs file
.TP
[\\fICERT\\fR]
The certificate\\(aqs file
.TP
\\fB\\-\\-seed\\fR \\fIN\\fR
Decides the random words; random draws it [default: 1]
.TP
\\fB\\-\\-budget\\fR \\fIN\\fR
The most steps that are made [default: 1000000000]
.TP
\\fB\\-\\-status\\fR
Writes status lines too
.TP
\\fB\\-\\-framed\\-status\\fR
Writes status lines too, each between bytes that no text has: 2, 31, 3
.TP
\\fB\\-\\-save\\fR \\fIFILE\\fR
The file that saves are kept in
.TP
\\fB\\-\\-tell\\fR
Tells of each save that is refused why it is
.TP
\\fB\\-\\-force\\fR
Writes over a file that holds something else
.TP
\\fB\\-\\-lenient\\fR
Goes on after faults as interpreters do, and tells of them
.TP
\\fB\\-\\-width\\fR \\fIN\\fR
Wraps text at so many columns, from 1 to 1000
.TP
\\fB\\-\\-plain\\fR
Wraps nothing, stops nowhere and draws no status line, on a terminal too
.TP
\\fB\\-\\-transcript\\fR \\fIFILE\\fR
The file that the text and the lines typed are kept in
.TP
\\fB\\-\\-record\\fR \\fIFILE\\fR
The file that the lines typed are kept in
.TP
\\fB\\-\\-replay\\fR \\fIFILE\\fR
A file whose lines are read before those typed
.TP
\\fB\\-\\-no\\-save\\fR
Keeps no saves, on a terminal too
.TP
\\fB\\-\\-commands\\fR
Does /undo, /quit and /help itself, each prompt with a budget of its own
.TP
\\fB\\-\\-debug\\fR \\fIFILE\\fR
Tells the source\\(aqs lines and names by this file, which Inform 6 writes with \\-k
.TP
\\fB\\-h,\\fR \\fB\\-\\-help\\fR
Print help
.SS zpc info
Tells what a story says of itself, and what it has.
.TP
\\fISTORY\\fR
The story\\(aqs file
.TP
\\fB\\-\\-json\\fR
Answers with one object of JSON a line
.TP
\\fB\\-h,\\fR \\fB\\-\\-help\\fR
Print help
.SS zpc explain
Says what a code means, or each of them.
.TP
[\\fICODE\\fR]
The code of a refusal, a fault or a failure, as I5 or F11; all, where none is named
.TP
\\fB\\-\\-json\\fR
Answers with one object of JSON a line
.TP
\\fB\\-h,\\fR \\fB\\-\\-help\\fR
Print help
.SS zpc unpack
Rewrites a save of another interpreter as one that zpc restores.
.PP
Other interpreters keep the memory of a save compressed, which zpc doesn\\(aqt restore. OUT then has the same save with its memory as it is.
.TP
\\fISTORY\\fR
The story\\(aqs file
.TP
\\fISAVE\\fR
The file of a save
.TP
\\fIOUT\\fR
The file that the plain save goes to
.TP
\\fB\\-\\-force\\fR
Writes over a file that holds something else
.TP
\\fB\\-h,\\fR \\fB\\-\\-help\\fR
Print help
.SS zpc help
Print this message or the help of the given subcommand(s).
.SH OPTIONS
.TP
\\fB\\-h,\\fR \\fB\\-\\-help\\fR
Print help
.TP
\\fB\\-V,\\fR \\fB\\-\\-version\\fR
Print version
.SH EXIT STATUS
.TP
\\fB0\\fR
done
.TP
\\fB1\\fR
refused: a story, a certificate, a save, or a file that would be written over; or no certificate is found
.TP
\\fB2\\fR
the words are wrong, or \\-o names one certificate for several stories
.TP
\\fB3\\fR
the story met a fault
.TP
\\fB4\\fR
a file or device failed, or memory was refused
.PP
What is refused, a fault and a failure are told on the errors by a code, as refused: I4 at 00329. zpc explain says what each means.
.SH FILES
.TP
\\fBstory.z3\\fR
A story file of version 3.
.TP
\\fBstory.cert\\fR
The certificate that is beside story.z3: .cert stands in the place of .z3 or .Z3, and behind a name that ends in neither. It is bound to its story by release, serial number, checksum and length.
.TP
\\fBmy.qzl\\fR
A save of the Quetzal standard, in the file that \\-\\-save names. It is written as my.qzl.part first and takes its name once it is on the disk, so that an end at any moment leaves the old save.
.TP
\\fBgameinfo.dbg\\fR
What Inform 6 writes of a story\\(aqs source with \\-k, in the file that \\-\\-debug names.
.SH EXAMPLES
.PP
.nf
.RS
zpc list story.z3
zpc list story.z3 story.cert
zpc list \\-\\-json story.z3
.RE
.fi
.PP
.nf
.RS
zpc find story.z3
zpc find story.z3 story.cert
zpc find story.z3 \\-o story.cert
zpc find \\-\\-json *.z3
.RE
.fi
.PP
.nf
.RS
zpc check story.z3
zpc check story.z3 story.cert
zpc check \\-\\-json *.z3
.RE
.fi
.PP
.nf
.RS
zpc show story.z3 story.cert
zpc show story.z3 story.cert 00325
.RE
.fi
.PP
.nf
.RS
zpc play story.z3
zpc play \\-\\-lenient story.z3
zpc play \\-\\-save my.qzl story.z3 story.cert
.RE
.fi
.PP
.nf
.RS
zpc info story.z3
zpc info \\-\\-json story.z3
.RE
.fi
.PP
.nf
.RS
zpc explain
zpc explain I5
zpc explain \\-\\-json I5
.RE
.fi
.PP
.nf
.RS
zpc unpack story.z3 theirs.qzl mine.qzl && zpc play \\-\\-save mine.qzl story.z3
.RE
.fi
.PP
.nf
.RS
zpc find story.z3 story.cert && zpc play story.z3 story.cert
.RE
.fi
.SH SEE ALSO
The Z\\-Machine Standards Document 1.1; Quetzal: Z\\-machine Common Save\\-File Format Standard 1.4.
";
