//! What the standard says of each opcode: the one table from which every layer takes it.

ghost use Rattle.std.specs.Prelude.{◌≡◌, option_to_list};
ghost use Rattle.zcode.specs.Names.{name_of};
ghost use Rattle.zcode.specs.Opcodes.{branches, operand_bounds, prints_text, stores};
ghost use Rattle.zcode.specs.Operation.{implied, operation_of};
ghost use Rattle.zcode.specs.Profile.{profile_of, row, seen};

use self::Tail::{Branches, Plain, Stores, StoresAndBranches, Text};
use crate::instr::Operand;
use crate::opcode::Opcode;
use crate::operation::Operation;
use crate::operation::Operation::{
    Binary, Call, ClearAttribute, Compare, Count, Follow, Insert, Inside, Jump, Load, LoadArray,
    NewLine, Nop, Print, PrintAt, PrintChar, PrintNumber, PrintObject, PrintReturn, Property,
    PropertyLength, Quit, Random, ReadLine, Remove, Restart, Restore, Return, Save, SetAttribute,
    SetProperty, ShowStatus, Store, StoreArray, TestAttribute, Unary, Verify,
};
use zarray::Width;
use zobj::{Link, PropertyQuestion};
use zword::{Addressing, BinaryOp, CountOp, Question, UnaryOp};

/// What follows an opcode's operands.
#[derive(Clone, Copy, PartialEq, Eq)]
pub enum Tail {
    Plain,
    /// A store byte (Z 4.6).
    Stores,
    /// Branch data (Z 4.7).
    Branches,
    /// A store byte, and then branch data.
    StoresAndBranches,
    /// Text (Z 4.8).
    Text,
}

/// What the standard says of an opcode, but for its number (Z 14, 15).
#[derive(Clone, Copy)]
pub struct Profile {
    /// Its name.
    pub name: &'static str,
    /// The fewest operands, and the most.
    pub bounds: (usize, usize),
    /// What follows them.
    pub tail: Tail,
    /// What it does.
    pub operation: Operation,
}

/// A row of the table.
#[inline(always)]
fn row(name: &'static str, bounds: (usize, usize), tail: Tail, operation: Operation) -> Profile
    ensures { seen result ≡ row name.now bounds tail operation }
{
    Profile {
        name,
        bounds,
        tail,
        operation,
    }
}

impl Opcode {
    /// Its row.
    #[inline(always)]
    pub(crate) fn profile(self) -> Profile
        ensures { seen result ≡ profile_of self }
    {
        match self {
            Opcode::Je => row("je", (2, 4), Branches, Compare(Question::Equal)),
            Opcode::Jl => row("jl", (2, 2), Branches, Compare(Question::Less)),
            Opcode::Jg => row("jg", (2, 2), Branches, Compare(Question::Greater)),
            Opcode::DecChk => row(
                "dec_chk",
                (2, 2),
                Branches,
                Count(CountOp::Down, Some(Question::Less)),
            ),
            Opcode::IncChk => row(
                "inc_chk",
                (2, 2),
                Branches,
                Count(CountOp::Up, Some(Question::Greater)),
            ),
            Opcode::Jin => row("jin", (2, 2), Branches, Inside),
            Opcode::Test => row("test", (2, 2), Branches, Compare(Question::Test)),
            Opcode::Or => row("or", (2, 2), Stores, Binary(BinaryOp::Or)),
            Opcode::And => row("and", (2, 2), Stores, Binary(BinaryOp::And)),
            Opcode::TestAttr => row("test_attr", (2, 2), Branches, TestAttribute),
            Opcode::SetAttr => row("set_attr", (2, 2), Plain, SetAttribute),
            Opcode::ClearAttr => row("clear_attr", (2, 2), Plain, ClearAttribute),
            Opcode::Store => row("store", (2, 2), Plain, Store),
            Opcode::InsertObj => row("insert_obj", (2, 2), Plain, Insert),
            Opcode::Loadw => row("loadw", (2, 2), Stores, LoadArray(Width::Word)),
            Opcode::Loadb => row("loadb", (2, 2), Stores, LoadArray(Width::Byte)),
            Opcode::GetProp => row(
                "get_prop",
                (2, 2),
                Stores,
                Property(PropertyQuestion::Value),
            ),
            Opcode::GetPropAddr => row(
                "get_prop_addr",
                (2, 2),
                Stores,
                Property(PropertyQuestion::Address),
            ),
            Opcode::GetNextProp => row(
                "get_next_prop",
                (2, 2),
                Stores,
                Property(PropertyQuestion::Next),
            ),
            Opcode::Add => row("add", (2, 2), Stores, Binary(BinaryOp::Add)),
            Opcode::Sub => row("sub", (2, 2), Stores, Binary(BinaryOp::Sub)),
            Opcode::Mul => row("mul", (2, 2), Stores, Binary(BinaryOp::Mul)),
            Opcode::Div => row("div", (2, 2), Stores, Binary(BinaryOp::Div)),
            Opcode::Mod => row("mod", (2, 2), Stores, Binary(BinaryOp::Mod)),
            Opcode::Jz => row("jz", (1, 1), Branches, Compare(Question::Equal)),
            Opcode::GetSibling => row(
                "get_sibling",
                (1, 1),
                StoresAndBranches,
                Follow(Link::Sibling),
            ),
            Opcode::GetChild => row("get_child", (1, 1), StoresAndBranches, Follow(Link::Child)),
            Opcode::GetParent => row("get_parent", (1, 1), Stores, Follow(Link::Parent)),
            Opcode::GetPropLen => row("get_prop_len", (1, 1), Stores, PropertyLength),
            Opcode::Inc => row("inc", (1, 1), Plain, Count(CountOp::Up, None)),
            Opcode::Dec => row("dec", (1, 1), Plain, Count(CountOp::Down, None)),
            Opcode::PrintAddr => row("print_addr", (1, 1), Plain, PrintAt(Addressing::Byte)),
            Opcode::RemoveObj => row("remove_obj", (1, 1), Plain, Remove),
            Opcode::PrintObj => row("print_obj", (1, 1), Plain, PrintObject),
            Opcode::Ret => row("ret", (1, 1), Plain, Return),
            Opcode::Jump => row("jump", (1, 1), Plain, Jump),
            Opcode::PrintPaddr => row("print_paddr", (1, 1), Plain, PrintAt(Addressing::Packed)),
            Opcode::Load => row("load", (1, 1), Stores, Load),
            Opcode::Not => row("not", (1, 1), Stores, Unary(UnaryOp::Not)),
            Opcode::Rtrue => row("rtrue", (0, 0), Plain, Return),
            Opcode::Rfalse => row("rfalse", (0, 0), Plain, Return),
            Opcode::Print => row("print", (0, 0), Text, Print),
            Opcode::PrintRet => row("print_ret", (0, 0), Text, PrintReturn),
            Opcode::Nop => row("nop", (0, 0), Plain, Nop),
            Opcode::Save => row("save", (0, 0), Branches, Save),
            Opcode::Restore => row("restore", (0, 0), Branches, Restore),
            Opcode::Restart => row("restart", (0, 0), Plain, Restart),
            Opcode::RetPopped => row("ret_popped", (0, 0), Plain, Return),
            Opcode::Pop => row("pop", (0, 0), Plain, Nop),
            Opcode::Quit => row("quit", (0, 0), Plain, Quit),
            Opcode::NewLine => row("new_line", (0, 0), Plain, NewLine),
            Opcode::ShowStatus => row("show_status", (0, 0), Plain, ShowStatus),
            Opcode::Verify => row("verify", (0, 0), Branches, Verify),
            Opcode::Call => row("call", (1, 4), Stores, Call),
            Opcode::Storew => row("storew", (3, 3), Plain, StoreArray(Width::Word)),
            Opcode::Storeb => row("storeb", (3, 3), Plain, StoreArray(Width::Byte)),
            Opcode::PutProp => row("put_prop", (3, 3), Plain, SetProperty),
            Opcode::Sread => row("sread", (2, 2), Plain, ReadLine),
            Opcode::PrintChar => row("print_char", (1, 1), Plain, PrintChar),
            Opcode::PrintNum => row("print_num", (1, 1), Plain, PrintNumber),
            Opcode::Random => row("random", (1, 1), Stores, Random),
            Opcode::Push => row("push", (1, 1), Plain, Unary(UnaryOp::Keep)),
            Opcode::Pull => row("pull", (1, 1), Plain, Store),
        }
    }

    /// The standard's name of it, as `new_line` (Z 14).
    pub fn name(self) -> &'static str
        ensures { result.now ≡ name_of self }
    {
        self.profile().name
    }

    /// The fewest and the most operands that it takes (Z 14).
    #[inline(always)]
    pub fn operand_bounds(self) -> (usize, usize)
        ensures { result ≡ operand_bounds self }
    {
        self.profile().bounds
    }

    /// Whether a store byte follows the operands (Z 4.6).
    pub fn stores(self) -> bool
        ensures { result ≡ stores self }
    {
        matches!(self.profile().tail, Tail::Stores | Tail::StoresAndBranches)
    }

    /// Whether branch data follows, after the store byte if there is one (Z 4.7).
    pub fn branches(self) -> bool
        ensures { result ≡ branches self }
    {
        matches!(
            self.profile().tail,
            Tail::Branches | Tail::StoresAndBranches
        )
    }

    /// Whether text follows (Z 4.8).
    pub fn prints_text(self) -> bool
        ensures { result ≡ prints_text self }
    {
        matches!(self.profile().tail, Tail::Text)
    }

    /// What the opcode does.
    #[tactic(auto, unfolding(crate::specs::Operation::operation_of))]
    pub fn operation(self) -> Operation
        ensures { result ≡ operation_of self }
    {
        self.profile().operation
    }

    /// What the opcode takes that isn't spelled, behind its operands: at most one.
    pub(crate) fn implied(self) -> Option<Operand>
        ensures { option_to_list result ≡ implied self }
    {
        match self {
            Opcode::Jz | Opcode::Rfalse => Some(Operand::Constant(0)),
            Opcode::Rtrue => Some(Operand::Constant(1)),
            Opcode::Pull | Opcode::Pop | Opcode::RetPopped => Some(Operand::Variable(0)),
            _ => None,
        }
    }
}
