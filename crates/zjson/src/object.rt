//! Objects of JSON: members in their order, each a name and a plain value.

ghost use Rattle.std.specs.Prelude.{◌≡◌, ◌++◌, IfOk, OnOk, Some, option_map};
ghost use Rattle.json.specs.Json.{document};
ghost use Rattle.json.specs.Tree.{json_tokens};
ghost use Rattle.zjson.specs.Objects.{line_of, number_or_null, object_of, object_text, pair_of, pair_tokens, pairs_of, text_or_null, value_of};

use json::Writer;
use std::alloc::{AllocError, Global};

/// What is said of a name.
#[derive(Clone, Copy)]
pub enum Value<'a> {
    /// A text, whatever characters it has.
    Text(&'a str),
    /// A number.
    Number(u64),
    /// Whether something holds.
    Flag(bool),
    /// That there is nothing to say.
    Nothing,
}

impl<'a> Value<'a> {
    /// A text, or that there is none.
    pub fn of_text(text: Option<&'a str>) -> Value<'a>
        ensures { value_of result ≡ text_or_null (option_map (λ text. text.now) text.entry) }
    {
        match text {
            Some(text) => Value::Text(text),
            None => Value::Nothing,
        }
    }

    /// A number, or that there is none.
    pub fn of_number(number: Option<u64>) -> Value<'a>
        ensures { value_of result ≡ number_or_null number }
    {
        match number {
            Some(number) => Value::Number(number),
            None => Value::Nothing,
        }
    }
}

/// A name with its value.
#[derive(Clone, Copy)]
pub struct Member<'a> {
    /// The name.
    pub name: &'a str,
    /// The value.
    pub value: Value<'a>,
}

impl<'a> Member<'a> {
    /// A name with its value.
    pub fn new(name: &'a str, value: Value<'a>) -> Member<'a>
        ensures { pair_of result ≡ (name.now, value_of value.entry) }
    {
        Member { name, value }
    }
}

/// The object of these members as a line with its end: in their order, with no space, and with the shortest escapes (RFC 8259). The
/// names ought to differ, or readers take the last of them. Fails only for want of memory.
pub fn line_of(alloc: Global, members: &[Member<'_>]) -> Result<Vec<u8>, AllocError>
    ensures text { IfOk result (λ line. line.items ≡ line_of (pairs_of members.now)) }
    ensures reads { OnOk result (document (object_text (pairs_of members.now)) ≡ Some (object_of (pairs_of members.now))) }
{
    let mut writer = Writer::new(Vec::new(alloc));
    write_object(members, &mut writer)?;
    let mut line = writer.into_inner();
    line.push(b'\n')?;
    Ok(line)
}

fn write_object(members: &[Member<'_>], writer: &mut Writer) -> Result<(), AllocError>
    ensures tokens { OnOk result (writer.new.tokens ≡ writer.old.tokens ++ json_tokens (object_of (pairs_of members.now))) }
    ensures before { writer.new.before ≡ writer.old.before }
{
    writer.begin_object()?;
    for member in members {
        write_member(member, writer)?;
    }
    writer.end_object()?;
    Ok(())
}

fn write_member(member: &Member<'_>, writer: &mut Writer) -> Result<(), AllocError>
    ensures tokens { OnOk result (writer.new.tokens ≡ writer.old.tokens ++ pair_tokens (pair_of member.now)) }
    ensures before { writer.new.before ≡ writer.old.before }
{
    writer.key(member.name)?;
    match member.value {
        Value::Text(text) => writer.string(text),
        Value::Number(number) => writer.u64(number),
        Value::Flag(flag) => writer.boolean(flag),
        Value::Nothing => writer.null(),
    }
}
