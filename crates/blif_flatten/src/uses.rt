// The names that a section uses, in the order of the text.
ghost use Rattle.std.specs.Prelude.{◌≡◌, ◌≤◌, ◌^◌, ◌++◌, [], map, length, List, IfOk, OnOk, All, IfSome, None, Some};
ghost use Rattle.std.specs.List.{cons_option, filter_map};
ghost use Rattle.rm_model.specs.declared.parts.Model.{Model as CircuitModel};
ghost use Rattle.blif_lines.specs.Reading.{IsWithin, spot_of};
ghost use Rattle.blif_format.specs.Uses.{parts_of, use_of, uses_of as uses_said};
ghost use Rattle.blif_reader.specs.Lines.{spots_at};
ghost use Rattle.blif_flatten.specs.declared.modules.Module.{Module as ModuleValue};
ghost use Rattle.blif_flatten.specs.Calls.{connection_of};
ghost use Rattle.blif_flatten.specs.CallFaults.{line_uses, pin_use, section_uses};
ghost use Rattle.blif_flatten.specs.Inner.Interfaces.{IsCallable, IsInterface, pins_at};
ghost use Rattle.blif_flatten.specs.Inner.Uses.{uses_at};
ghost use Rattle.blif_flatten.specs.Inner.Tokens.{IsLineWithin, IsSectionWithin, section_at};

use crate::calls::{Callable, callee, is_call};
use crate::interfaces::Interface;
use crate::sections::Section;
use crate::sides::sides_of;
use blif_format::{Command, Part, Role};
use blif_lines::Token;
use blif_reader::{command_of, is_text, part_at, word_of};
use rm_base::{NoMemory, Place};
use std::alloc::Global;

/// A name where it is used.
#[derive(Clone, Copy)]
pub struct NameUse<'a> {
    pub role: Role,
    pub name: &'a [u8],
    pub place: Place,
}

fn push_part<'a>(
    uses: &mut Vec<NameUse<'a>>,
    text: &'a [u8],
    part: Part,
    token: &Token,
) -> Result<(), NoMemory>
    requires { IsWithin text.now token.now }
    ensures { OnOk result (uses_at uses.new.items ≡ uses_at uses.old.items ++ cons_option (use_of (part, spot_of text.now token.now)) []) }
{
    let Part::Name(role) = part else {
        return Ok(());
    };
    let name = word_of(text, token);
    if role == Role::Control && is_text(name, "NIL") {
        return Ok(());
    }
    uses.push(NameUse {
        role,
        name,
        place: token.place,
    })?;
    Ok(())
}

fn push_command<'a>(
    uses: &mut Vec<NameUse<'a>>,
    text: &'a [u8],
    command: Command,
    words: &[Token],
) -> Result<(), NoMemory>
    requires words { All (IsWithin text.now) words.now }
    requires small { length words.now ≤ 2 ^ 32 }
    ensures { OnOk result (uses_at uses.new.items ≡ uses_at uses.old.items ++ filter_map use_of (parts_of command (spots_at text.now words.now))) }
{
    let count = words.len();
    for (i, token) in words.iter().enumerate() {
        push_part(uses, text, part_at(command, count, i), token)?;
    }
    Ok(())
}

fn push_pin<'a>(
    uses: &mut Vec<NameUse<'a>>,
    text: &'a [u8],
    interface: &Interface<'a>,
    pin: &Token,
) -> Result<(), NoMemory>
    requires { IsWithin text.now pin.now }
    ensures { (m : CircuitModel) → IsInterface interface.now m → OnOk result (uses_at uses.new.items ≡ uses_at uses.old.items ++ map (pin_use m) (cons_option (connection_of (spot_of text.now pin.now)) [])) }
{
    let Some((formal, actual)) = sides_of(word_of(text, pin), b'=') else {
        return Ok(());
    };
    let role = if interface.inward.table.has(formal) {
        Role::CoverInput
    } else {
        Role::CoverOutput
    };
    uses.push(NameUse {
        role,
        name: actual,
        place: pin.place,
    })?;
    Ok(())
}

fn push_pins<'a>(
    uses: &mut Vec<NameUse<'a>>,
    text: &'a [u8],
    interface: &Interface<'a>,
    pins: &[Token],
) -> Result<(), NoMemory>
    requires { All (IsWithin text.now) pins.now }
    ensures { (m : CircuitModel) → IsInterface interface.now m → OnOk result (uses_at uses.new.items ≡ uses_at uses.old.items ++ map (pin_use m) (pins_at text.now pins.now)) }
{
    for pin in pins {
        push_pin(uses, text, interface, pin)?;
    }
    Ok(())
}

fn push_plain<'a>(
    uses: &mut Vec<NameUse<'a>>,
    text: &'a [u8],
    line: &[Token],
) -> Result<(), NoMemory>
    requires { IsLineWithin text.now line.now }
    ensures { OnOk result (uses_at uses.new.items ≡ uses_at uses.old.items ++ uses_said (spots_at text.now line.now)) }
{
    match line.split_first() {
        None => Ok(()),
        Some((first, rest)) => match command_of(word_of(text, first)) {
            Some(command) => push_command(uses, text, command, rest),
            None => Ok(()),
        },
    }
}

fn push_line<'a>(
    uses: &mut Vec<NameUse<'a>>,
    text: &'a [u8],
    callable: &Callable<'a>,
    line: &[Token],
) -> Result<(), NoMemory>
    requires { IsLineWithin text.now line.now }
    ensures { (modules : List ModuleValue) → IsCallable callable.now modules → OnOk result (uses_at uses.new.items ≡ uses_at uses.old.items ++ line_uses modules (spots_at text.now line.now)) }
{
    if !is_call(text, line) {
        return push_plain(uses, text, line);
    }
    match callee(callable, text, &line[1]) {
        Some(interface) => push_pins(uses, text, interface, &line[2..]),
        None => Ok(()),
    }
}

/// The names that a section uses.
pub fn uses_of<'a>(
    alloc: Global,
    text: &'a [u8],
    callable: &Callable<'a>,
    section: &Section,
) -> Result<Vec<NameUse<'a>>, NoMemory>
    requires { IsSectionWithin text.now section.now }
    ensures { (modules : List ModuleValue) → IsCallable callable.now modules → IfOk result (λ uses. uses_at uses.items ≡ section_uses modules (section_at text.now section.now)) }
{
    let mut uses = Vec::new(alloc);
    for line in section.body.items() {
        push_line(&mut uses, text, callable, line.items())?;
    }
    Ok(uses)
}
