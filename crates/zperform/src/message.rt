//! The line that says what a command came to, made with no memory.

ghost use Rattle.std.specs.Prelude.{◌≡◌, ◌<◌, ◌≤◌, ◌+◌, ◌++◌, ◌∷◌, [], codes, length, decimal, pos};
ghost use Rattle.zfind.specs.Finding.{number_of as find_number};
ghost use Rattle.zlist.specs.Listed.{number_of, place_of};
ghost use Rattle.zperform.specs.Excusing.{count_line, warning_text};
ghost use Rattle.zperform.specs.Telling.{refusal_text};
ghost use Rattle.zperform.specs.Report.{accepted_line, address_text, broken_text, end_text, failure_text, first_text, found_line, hex_digit, line_of, marks_text, place_text, rest_text, stopped_text, text_of, why_text};

use crate::outcome::{Failure, Outcome, Problem};
use arrayvec::ArrayVec;
use itoa::Buffer;
use std::marker::Model;
use zfault::Fault;
use zfind::{FindError, Obstacle};
use zlist::ListError;
use zplayer::{Answered, End};
use zquetzal::SaveError;

/// The most bytes that a text has room for.
const ROOM: usize = 256;

/// What is said of a code that there isn't.
const NO_CODE: &[u8] =
    b"error: no such code; there are L1 to L12, K1 to K9, S1 to S8, I1 to I18, U1 to U4, G1 to G3, F1 to F16, J1 to J5, E1 to E3, Q1 to Q11, C1 to C9, P1 to P3, N1 to N2 and B1 to B10

Usage: zpc explain [OPTIONS] [CODE]

For more information, try '--help'.";

/// What is said where one certificate is named for more stories than one.
const ONE_FOR_MANY: &[u8] =
    b"error: '--output' names the certificate of one story, and there isn't just one

Usage: zpc find [OPTIONS] <FILE>...

For more information, try '--help'.";

/// What is said of a word that is no address.
const NO_ADDRESS: &[u8] = b"error: an address has one to five hexadecimal digits, as 00325

Usage: zpc show [OPTIONS] <STORY> <CERT> [ADDRESS]

For more information, try '--help'.";

/// A short text: a line, or a few.
#[derive(Drop)]
pub struct Message {
    bytes: ArrayVec<u8, ROOM>,
}

impl Model for Message {
    ghost use Rattle.std.specs.Prelude.{List, ℕ};

    ghost Value = { List ℕ };

    ghost view = { λ message. message.bytes.items };
}

impl Message {
    /// The lines of an outcome, with their ends; empty where there is nothing to say.
    pub fn of(outcome: &Outcome) -> Message
        ensures { result ≡ line_of (text_of outcome.now) }
    {
        let mut message = Message::new();
        match outcome {
            Outcome::Listed
            | Outcome::Found
            | Outcome::Accepted
            | Outcome::Through(_)
            | Outcome::Shown
            | Outcome::Informed
            | Outcome::Explained
            | Outcome::Unpacked => {}
            Outcome::NoAddress => message.push(NO_ADDRESS),
            Outcome::NoSuchCode => message.push(NO_CODE),
            Outcome::OneForMany => message.push(ONE_FOR_MANY),
            Outcome::Played(end) => message.push_end(end),
            Outcome::Stopped(problem) => message.push_problem(problem),
        }
        message.finish();
        message
    }

    /// The line of a fault without its end.
    pub fn of_fault(fault: Fault, place: i32) -> Message
        ensures { result ≡ end_text (End.Fault fault place) }
    {
        let mut message = Message::new();
        message.push_fault(fault, place);
        message
    }

    /// The line of a fault that was answered, without its end.
    pub fn of_answered(answered: Answered) -> Message
        ensures { result ≡ warning_text answered }
    {
        let mut message = Message::new();
        message.push_warning(answered);
        message
    }

    /// The same line with its end.
    pub fn of_warning(answered: Answered) -> Message
        ensures { result ≡ warning_text answered ++ 10 ∷ [] }
    {
        let mut message = Message::new();
        message.push_warning(answered);
        message.push(b"\n");
        message
    }

    /// The line that says how many faults were answered, with its end; empty where none were.
    pub fn of_count(count: u64) -> Message
        ensures { result ≡ count_line count }
    {
        let mut message = Message::new();
        if count > 0 {
            message.push(b"faults answered: ");
            message.push(Buffer::new().format(count).as_bytes());
            message.push(b"\n");
        }
        message
    }

    /// The line of a save that is refused, with its end.
    pub fn of_refusal(error: SaveError) -> Message
        ensures { result ≡ line_of (refusal_text error) }
    {
        let mut message = Message::new();
        message.push(b"save refused: Q");
        message.push_number(error.number());
        message.finish();
        message
    }

    /// The line of a certificate that is accepted and marks so many instructions, with its end.
    pub fn of_accepted(marks: usize) -> Message
        ensures { result ≡ accepted_line marks }
    {
        let mut message = Message::new();
        message.push(b"accepted");
        message.push_marks(marks);
        message.push(b"\n");
        message
    }

    /// The line of a certificate that is found and marks so many, with its end.
    pub fn of_found(marks: usize) -> Message
        ensures { result ≡ found_line marks }
    {
        let mut message = Message::new();
        message.push(b"found");
        message.push_marks(marks);
        message.push(b"\n");
        message
    }

    /// How many instructions are marked, if any are.
    fn push_marks(&mut self, marks: usize)
        requires { length self.old ≤ 8 }
        ensures text { self.new ≡ self.old ++ marks_text marks }
        ensures most { length self.new ≤ length self.old + 30 }
    {
        if marks > 0 {
            self.push(b", marked: ");
            self.push_count(marks);
        }
    }

    /// The bytes of the line.
    pub fn as_slice(&self) -> &[u8]
        ensures { result.now ≡ self.now }
    {
        self.bytes.as_slice()
    }

    fn new() -> Message
        ensures { result ≡ [] }
    {
        Message {
            bytes: ArrayVec::new(),
        }
    }

    fn push(&mut self, text: &[u8])
        requires { length self.old + length text.now ≤ ROOM }
        ensures { self.new ≡ self.old ++ text.now }
    {
        let _ = self.bytes.try_extend_from_slice(text);
    }

    /// The first line of a problem, without its end.
    pub fn first_of(problem: &Problem) -> Message
        ensures { result ≡ first_text problem.now }
    {
        let mut message = Message::new();
        message.push_first(problem);
        message
    }

    /// The lines behind that, each with the end of the line before it.
    pub fn rest_of(problem: &Problem) -> Message
        ensures { result ≡ rest_text problem.now }
    {
        let mut message = Message::new();
        message.push_rest(problem);
        message
    }

    fn push_problem(&mut self, problem: &Problem)
        requires { self.old ≡ [] }
        ensures text { self.new ≡ text_of (Outcome.Stopped problem.now) }
        ensures room { length self.new < ROOM }
    {
        self.push_first(problem);
        self.push_rest(problem);
    }

    /// Adds the lines behind the first one.
    fn push_rest(&mut self, problem: &Problem)
        requires { length self.old ≤ 28 }
        ensures text { self.new ≡ self.old ++ rest_text problem.now }
        ensures most { length self.new ≤ length self.old + 36 }
    {
        if let Problem::Unfound(error, broken) = problem {
            self.push(b"\n");
            self.push_why(*error, *broken);
        }
    }

    /// What is told of why no certificate was found: what is broken in every one, if that is known, but where a rule of the story ended the
    /// search that one.
    fn push_why(&mut self, error: FindError, broken: Option<Obstacle>)
        requires { length self.old + 35 ≤ ROOM }
        ensures text { self.new ≡ self.old ++ why_text error broken }
        ensures most { length self.new ≤ length self.old + 35 }
    {
        match (error, broken) {
            (FindError::NotFound(Obstacle::Story(_)), Some(Obstacle::Story(_))) => {
                self.push_broken(broken);
            }
            (FindError::NotFound(Obstacle::Story(rule)), _) => {
                self.push(b"broken: S");
                self.push_number(rule.number());
            }
            _ => self.push_broken(broken),
        }
    }

    fn push_first(&mut self, problem: &Problem)
        requires { self.old ≡ [] }
        ensures text { self.new ≡ first_text problem.now }
        ensures most { length self.new ≤ 28 }
    {
        match problem {
            Problem::Refused(error) => self.push_code(b"refused: L", error.number()),
            Problem::Unreadable(error) => self.push_code(b"refused: K", error.number()),
            Problem::BreaksStory(rule) => self.push_code(b"refused: S", rule.number()),
            Problem::BreaksInstruction(address, rule) => {
                self.push_code(b"refused: I", rule.number());
                self.push(b" at ");
                self.push_address(*address);
            }
            Problem::Unlisted(error) => {
                self.push_code(b"refused: U", number_of(*error));
                self.push(b" at ");
                self.push_place_of(*error);
            }
            Problem::Unfound(error, _) => self.push_unfound(*error),
            Problem::Occupied(purpose) => self.push_code(b"refused: N", purpose.number()),
            Problem::Packed(error) => self.push_code(b"refused: C", error.number()),
            Problem::Failed(failure) => self.push(failure_text(*failure)),
        }
    }

    /// Where a search for a certificate stopped.
    fn push_unfound(&mut self, error: FindError)
        requires { self.old ≡ [] }
        ensures text { self.new ≡ codes "refused: G" ++ decimal (find_number error) ++ stopped_text error }
        ensures most { length self.new ≤ 28 }
    {
        self.push_code(b"refused: G", error.number());
        match error {
            FindError::NotFound(Obstacle::Place(place, _)) => {
                self.push(b" at ");
                self.push_place(place);
            }
            FindError::NotFound(Obstacle::Story(_)) => {}
            FindError::RoundLimit | FindError::OutOfMemory => {}
        }
    }

    /// What is broken in every certificate, if that is known.
    fn push_broken(&mut self, broken: Option<Obstacle>)
        requires { length self.old + 35 ≤ ROOM }
        ensures text { self.new ≡ self.old ++ broken_text broken }
        ensures most { length self.new ≤ length self.old + 35 }
    {
        match broken {
            Some(Obstacle::Story(rule)) => {
                self.push(b"no certificate: S");
                self.push_number(rule.number());
            }
            Some(Obstacle::Place(place, rule)) => {
                self.push(b"no certificate: I");
                self.push_number(rule.number());
                self.push(b" at ");
                self.push_place(place);
            }
            None => self.push(b"not found"),
        }
    }

    fn push_place_of(&mut self, error: ListError)
        requires { length self.old + 11 ≤ ROOM }
        ensures text { self.new ≡ self.old ++ place_text (place_of error) }
        ensures most { length self.new ≤ length self.old + 11 }
    {
        match error {
            ListError::Decode(place, _) => self.push_place(place),
            ListError::TwoRoutines(address) | ListError::ComputedJump(address) => {
                self.push_address(address);
            }
            ListError::OutOfMemory => self.push_address(0),
        }
    }

    fn push_code(&mut self, text: &[u8], number: u8)
        requires empty { self.old ≡ [] }
        requires short { length text.now ≤ 10 }
        ensures text { self.new ≡ text.now ++ decimal number }
        ensures most { length self.new ≤ 13 }
    {
        self.push(text);
        self.push_number(number);
    }

    fn push_end(&mut self, end: &End)
        requires { self.old ≡ [] }
        ensures text { self.new ≡ end_text end.now }
        ensures room { length self.new < ROOM }
    {
        match end {
            End::Quit => {}
            End::NoInput => self.push(b"end: no input"),
            End::Budget => self.push(b"end: budget"),
            End::FrameLimit => self.push(b"end: frame limit"),
            End::Fault(fault, place) => self.push_fault(*fault, *place),
        }
    }

    fn push_fault(&mut self, fault: Fault, place: i32)
        requires { self.old ≡ [] }
        ensures text { self.new ≡ end_text (End.Fault fault place) }
        ensures room { length self.new < ROOM }
    {
        self.push(b"fault: F");
        self.push_number(fault.number());
        self.push(b" at ");
        self.push_place(place);
    }

    fn push_warning(&mut self, answered: Answered)
        requires { self.old ≡ [] }
        ensures text { self.new ≡ warning_text answered }
        ensures most { length self.new ≤ 28 }
    {
        self.push(b"warning: F");
        self.push_number(answered.fault.number());
        self.push(b" at ");
        self.push_place(answered.place);
    }

    fn push_number(&mut self, number: u8)
        requires { length self.old + 3 ≤ ROOM }
        ensures text { self.new ≡ self.old ++ decimal number }
        ensures most { length self.new ≤ length self.old + 3 }
    {
        self.push(Buffer::new().format(number).as_bytes());
    }

    fn push_count(&mut self, count: usize)
        requires { length self.old + 20 ≤ ROOM }
        ensures text { self.new ≡ self.old ++ decimal count }
        ensures most { length self.new ≤ length self.old + 20 }
    {
        self.push(Buffer::new().format(count).as_bytes());
    }

    fn push_place(&mut self, place: i32)
        requires { length self.old + 11 ≤ ROOM }
        ensures text { self.new ≡ self.old ++ place_text place }
        ensures most { length self.new ≤ length self.old + 11 }
    {
        if 0 <= place && place < 0x100000 {
            self.push(&address_text(place as u32));
        } else {
            self.push(Buffer::new().format(place).as_bytes());
        }
    }

    fn push_address(&mut self, address: u32)
        requires { length self.old + 11 ≤ ROOM }
        ensures text { self.new ≡ self.old ++ place_text (pos address) }
        ensures most { length self.new ≤ length self.old + 11 }
    {
        if address < 0x100000 {
            self.push(&address_text(address));
        } else {
            self.push(Buffer::new().format(address).as_bytes());
        }
    }

    fn finish(&mut self)
        requires { length self.old < ROOM }
        ensures { self.new ≡ line_of self.old }
    {
        if !self.bytes.is_empty() {
            self.push(b"\n");
        }
    }
}

fn failure_text(failure: Failure) -> &'static [u8]
    ensures text { result.now ≡ failure_text failure }
    ensures most { length result.now ≤ 28 }
{
    match failure {
        Failure::File => b"failed: file",
        Failure::Read => b"failed: read",
        Failure::Write => b"failed: write",
        Failure::Memory => b"failed: memory",
    }
}

/// The number of what is at fault with a listing.
pub fn number_of(error: ListError) -> u8
    ensures { result ≡ number_of error }
{
    match error {
        ListError::Decode(_, _) => 1,
        ListError::TwoRoutines(_) => 2,
        ListError::ComputedJump(_) => 3,
        ListError::OutOfMemory => 4,
    }
}

/// The five hexadecimal digits of a place.
pub fn address_text(place: u32) -> [u8; 5]
    requires { place < 0x100000 }
    ensures { result ≡ address_text place }
{
    [
        hex_digit(place / 0x10000),
        hex_digit(place / 0x1000 % 0x10),
        hex_digit(place / 0x100 % 0x10),
        hex_digit(place / 0x10 % 0x10),
        hex_digit(place % 0x10),
    ]
}

/// The lower-case hexadecimal digit of a number below 16.
fn hex_digit(n: u32) -> u8
    requires { n < 16 }
    ensures { result ≡ hex_digit n }
{
    b"0123456789abcdef"[n as usize]
}
