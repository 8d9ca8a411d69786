// The modules of a text: the models of its sections, each with its calls.
ghost use Rattle.std.specs.Prelude.{◌≡◌, ◌++◌, ◌≤◌, [], map, length, List, IfOk, OnOk, All, IfSome, None, Some};
ghost use Rattle.std.specs.List.{cons_option, filter_map};
ghost use Rattle.std.specs.Option.{option_map};
ghost use Rattle.rm_base.specs.Words.{Word};
ghost use Rattle.rm_model.specs.declared.parts.Model.{Model as CircuitModel};
ghost use Rattle.blif_lines.specs.Reading.{IsWithin, spot_of};
ghost use Rattle.blif_reader.specs.Lines.{spots_at};
ghost use Rattle.blif_flatten.specs.declared.modules.Module.{Module as ModuleValue};
ghost use Rattle.blif_flatten.specs.Calls.{call_of, calls_of, connection_of};
ghost use Rattle.blif_flatten.specs.CallFaults.{plain_modules};
ghost use Rattle.blif_flatten.specs.Instances.{link_of as link_said, modules_of as modules_said, pin_in};
ghost use Rattle.blif_flatten.specs.Inner.Interfaces.{IsCallable, IsInterface, call_at, link_of_call, pins_at};
ghost use Rattle.blif_flatten.specs.Inner.Tokens.{AreWithin, IsLineWithin, IsSectionWithin, section_at, sections_at};

use crate::calls::{Callable, interface_at, is_call};
use crate::interfaces::Interface;
use crate::models::module_of;
use crate::modules::{Link, Module, Pin};
use crate::sections::Section;
use crate::sides::sides_of;
use blif_lines::Token;
use blif_reader::word_of;
use rm_base::NoMemory;
use rm_model::Listed;
use std::alloc::Global;

fn push_pin<'a>(
    alloc: Global,
    pins: &mut Listed<Pin>,
    text: &'a [u8],
    interface: &Interface<'a>,
    pin: &Token,
) -> Result<(), NoMemory>
    requires { IsWithin text.now pin.now }
    ensures { (m : CircuitModel) → IsInterface interface.now m → OnOk result (pins.new ≡ pins.old ++ cons_option (option_map (pin_in m) (connection_of (spot_of text.now pin.now))) []) }
{
    let Some((formal, actual)) = sides_of(word_of(text, pin), b'=') else {
        return Ok(());
    };
    pins.push(Pin {
        formal: Listed::from_vec(Vec::from_slice(alloc, formal)?),
        actual: Listed::from_vec(Vec::from_slice(alloc, actual)?),
        is_input: interface.inward.table.has(formal),
    })
}

fn pins_of<'a>(
    alloc: Global,
    text: &'a [u8],
    interface: &Interface<'a>,
    words: &[Token],
) -> Result<Listed<Pin>, NoMemory>
    requires { All (IsWithin text.now) words.now }
    ensures { (m : CircuitModel) → IsInterface interface.now m → IfOk result (λ pins. pins ≡ map (pin_in m) (pins_at text.now words.now)) }
{
    let mut pins = Listed::new(alloc);
    for word in words {
        push_pin(alloc, &mut pins, text, interface, word)?;
    }
    Ok(pins)
}

// The link of a call, if the text has its model.
fn call_link<'a>(
    alloc: Global,
    text: &'a [u8],
    callable: &Callable<'a>,
    line: &[Token],
) -> Result<Option<Link>, NoMemory>
    requires within { IsLineWithin text.now line.now }
    requires long { 2 ≤ length line.now }
    ensures { (modules : List ModuleValue) → IsCallable callable.now modules → IfOk result (λ link. link ≡ link_said modules (call_at text.now line.now)) }
{
    let Some(called) = callable.names.place(word_of(text, &line[1])) else {
        return Ok(None);
    };
    let Some(interface) = interface_at(callable.interfaces.as_slice(), called) else {
        return Ok(None);
    };
    let pins = pins_of(alloc, text, interface, &line[2..])?;
    Ok(Some(Link {
        place: line[0].place,
        called,
        pins,
    }))
}

// Adds the link of a line, if it is a call.
fn push_link<'a>(
    alloc: Global,
    links: &mut Listed<Link>,
    text: &'a [u8],
    callable: &Callable<'a>,
    line: &[Token],
) -> Result<(), NoMemory>
    requires { IsLineWithin text.now line.now }
    ensures { (modules : List ModuleValue) → IsCallable callable.now modules → OnOk result (links.new ≡ links.old ++ cons_option (link_of_call modules (call_of (spots_at text.now line.now))) []) }
{
    if !is_call(text, line) {
        return Ok(());
    }
    match call_link(alloc, text, callable, line)? {
        Some(link) => links.push(link),
        None => Ok(()),
    }
}

fn links_of<'a>(
    alloc: Global,
    text: &'a [u8],
    callable: &Callable<'a>,
    section: &Section,
) -> Result<Listed<Link>, NoMemory>
    requires { IsSectionWithin text.now section.now }
    ensures { (modules : List ModuleValue) → IsCallable callable.now modules → IfOk result (λ links. links ≡ filter_map (link_said modules) (calls_of (section_at text.now section.now))) }
{
    let mut links = Listed::new(alloc);
    for line in section.body.items() {
        push_link(alloc, &mut links, text, callable, line.items())?;
    }
    Ok(links)
}

/// The modules of all sections.
pub fn modules_of<'a>(
    alloc: Global,
    text: &'a [u8],
    callable: &Callable<'a>,
    sections: &[Section],
) -> Result<Vec<Module>, NoMemory>
    requires within { AreWithin text.now sections.now }
    requires known { IsCallable callable.now (plain_modules (sections_at text.now sections.now)) }
    ensures { IfOk result (λ modules. modules.items ≡ modules_said (sections_at text.now sections.now)) }
{
    let mut modules = Vec::new(alloc);
    for section in sections {
        let links = links_of(alloc, text, callable, section)?;
        modules.push(module_of(alloc, text, section, links)?)?;
    }
    Ok(modules)
}
