// The calls of a section: their first fault, and their links.
ghost use Rattle.std.specs.Prelude.{◌≡◌, ◌≤◌, ◌<◌, ◌++◌, ◌∷◌, [], map, length, slice_get, List, ℕ, OnOk, IfOk, IfErr, All, IfSome, None, Some, true, false};
ghost use Rattle.std.specs.List.{cons_option, filter_map, list_all};
ghost use Rattle.std.specs.Option.{option_map};
ghost use Rattle.rm_base.specs.Words.{Word};
ghost use Rattle.rm_model.specs.Value.{is_among};
ghost use Rattle.rm_model.specs.declared.parts.Model.{Model as CircuitModel};
ghost use Rattle.blif_lines.specs.Reading.{IsWithin, spot_of};
ghost use Rattle.blif_reader.specs.Lines.{spots_at};
ghost use Rattle.blif_reader.specs.Meant.{IsRefusal, refusal_of};
ghost use Rattle.blif_flatten.specs.declared.modules.Module.{Module as ModuleValue};
ghost use Rattle.blif_flatten.specs.Calls.{call_of, connection_of};
ghost use Rattle.blif_flatten.specs.CallFaults.{calls_fault, formals_fault, formals_of, is_formal, inward, place_named, plain_modules, section_calls_fault};
ghost use Rattle.blif_flatten.specs.Inner.Interfaces.{AreInterfaces, IsCallable, IsInterface, Names, TakesFormal, call_at, fault_of_call, pins_at, pins_fault_in};
ghost use Rattle.blif_flatten.specs.Inner.Tokens.{AreWithin, IsLineWithin, IsSectionWithin, lines_at, section_at, sections_at};

use crate::interfaces::Interface;
use crate::models::begins_with;
use crate::sections::Section;
use crate::sides::sides_of;
use blif_format::{FaultKind, ReadRefusal};
use blif_lines::Token;
use blif_reader::{fault, word_of};
use rm_model::{NameKeys, NameTable};
use std::alloc::Global;

/// The models that calls may name, and their formals.
#[derive(Drop)]
pub struct Callable<'a> {
    pub names: NameTable<'a>,
    pub interfaces: Vec<Interface<'a>>,
}

fn is_formal_of<'a>(interface: &Interface<'a>, name: &'a [u8]) -> bool
    ensures { (m : CircuitModel) → IsInterface interface.now m → result ≡ is_formal m name.now }
{
    interface.inward.table.has(name) || interface.outputs.table.has(name)
}

// Takes the formal of a pin, which stands once.
fn take_formal<'a>(
    given: &mut NameTable<'a>,
    text: &'a [u8],
    interface: &Interface<'a>,
    pin: &Token,
) -> Result<(), ReadRefusal>
    requires { IsWithin text.now pin.now }
    ensures ok { (m : CircuitModel) → IsInterface interface.now m → OnOk result (TakesFormal m given.old (connection_of (spot_of text.now pin.now)) given.new) }
    ensures err { (m : CircuitModel) → IsInterface interface.now m → IfErr result (λ e. IsRefusal e (formals_fault m given.old (cons_option (connection_of (spot_of text.now pin.now)) []))) }
{
    let Some((formal, _)) = sides_of(word_of(text, pin), b'=') else {
        return Ok(());
    };
    if given.has(formal) || !is_formal_of(interface, formal) {
        return fault(FaultKind::BadPin, pin.place);
    }
    match given.push(formal) {
        Ok(()) => Ok(()),
        Err(_) => Err(ReadRefusal::NoMemory),
    }
}

// The formals of all pins, which are those of the model and stand once.
fn take_formals<'a>(
    alloc: Global,
    keys: NameKeys,
    text: &'a [u8],
    interface: &Interface<'a>,
    pins: &[Token],
) -> Result<NameTable<'a>, ReadRefusal>
    requires { All (IsWithin text.now) pins.now }
    ensures ok { (m : CircuitModel) → IsInterface interface.now m → OnOk result (formals_fault m [] (pins_at text.now pins.now) ≡ None) }
    ensures given { (m : CircuitModel) → IsInterface interface.now m → IfOk result (λ given. given ≡ formals_of (pins_at text.now pins.now)) }
    ensures err { (m : CircuitModel) → IsInterface interface.now m → IfErr result (λ e. IsRefusal e (formals_fault m [] (pins_at text.now pins.now))) }
{
    let mut given = NameTable::new(alloc, keys);
    for pin in pins {
        match take_formal(&mut given, text, interface, pin) {
            Ok(()) => {}
            Err(refusal) => return Err(refusal),
        }
    }
    Ok(given)
}

// Whether all inputs of the model are given.
fn gives_inputs<'a>(interface: &Interface<'a>, given: &NameTable<'a>) -> bool
    ensures { (m : CircuitModel) → IsInterface interface.now m → result ≡ list_all (is_among given.now) (inward m) }
{
    for name in interface.inward.names.as_slice() {
        if !given.has(*name) {
            return false;
        }
    }
    true
}

fn check_pins<'a>(
    alloc: Global,
    keys: NameKeys,
    text: &'a [u8],
    interface: &Interface<'a>,
    first: &Token,
    pins: &[Token],
) -> Result<(), ReadRefusal>
    requires { All (IsWithin text.now) pins.now }
    ensures ok { (m : CircuitModel) → IsInterface interface.now m → OnOk result (pins_fault_in m first.now.place (pins_at text.now pins.now) ≡ None) }
    ensures err { (m : CircuitModel) → IsInterface interface.now m → IfErr result (λ e. IsRefusal e (pins_fault_in m first.now.place (pins_at text.now pins.now))) }
{
    let given = match take_formals(alloc, keys, text, interface, pins) {
        Ok(given) => given,
        Err(refusal) => return Err(refusal),
    };
    if !gives_inputs(interface, &given) {
        return fault(FaultKind::MissingPin, first.place);
    }
    Ok(())
}

/// Whether a line is a call that names a model.
pub fn is_call(text: &[u8], line: &[Token]) -> bool
    requires { IsLineWithin text.now line.now }
    ensures call { result ≡ true → call_of (spots_at text.now line.now) ≡ Some (call_at text.now line.now) }
    ensures other { result ≡ false → call_of (spots_at text.now line.now) ≡ None }
    ensures long { result ≡ true → 2 ≤ length line.now }
{
    line.len() > 1 && begins_with(text, line, ".subckt")
}

/// The formals of the module at a place.
pub fn interface_at<'a, 'b>(
    interfaces: &'b [Interface<'a>],
    place: usize,
) -> Option<&'b Interface<'a>>
    ensures some { IfSome result (λ i. slice_get interfaces.now place ≡ Some i.now) }
    ensures none { result ≡ None → slice_get interfaces.now place ≡ None }
{
    interfaces.get(place)
}

/// The formals of the model that a call names, if the text has it.
pub fn callee<'a, 'b>(
    callable: &'b Callable<'a>,
    text: &'a [u8],
    name: &Token,
) -> Option<&'b Interface<'a>>
    requires { IsWithin text.now name.now }
    ensures some { (modules : List ModuleValue) → IsCallable callable.now modules → IfSome result (λ i. Names modules (spot_of text.now name.now).word i.now) }
    ensures none { (modules : List ModuleValue) → IsCallable callable.now modules → result ≡ None → place_named modules (spot_of text.now name.now).word ≡ None }
{
    let Some(place) = callable.names.place(word_of(text, name)) else {
        return None;
    };
    match interface_at(callable.interfaces.as_slice(), place) {
        Some(interface) => Some(interface),
        None => None,
    }
}

fn check_call<'a>(
    alloc: Global,
    keys: NameKeys,
    text: &'a [u8],
    callable: &Callable<'a>,
    line: &[Token],
) -> Result<(), ReadRefusal>
    requires { IsLineWithin text.now line.now }
    ensures ok { (modules : List ModuleValue) → IsCallable callable.now modules → OnOk result (fault_of_call modules (call_of (spots_at text.now line.now)) ≡ None) }
    ensures err { (modules : List ModuleValue) → IsCallable callable.now modules → IfErr result (λ e. IsRefusal e (fault_of_call modules (call_of (spots_at text.now line.now)))) }
{
    if !is_call(text, line) {
        return Ok(());
    }
    match callee(callable, text, &line[1]) {
        Some(interface) => check_pins(alloc, keys, text, interface, &line[0], &line[2..]),
        None => fault(FaultKind::UnknownModel, line[1].place),
    }
}

fn check_section<'a>(
    alloc: Global,
    keys: NameKeys,
    text: &'a [u8],
    callable: &Callable<'a>,
    section: &Section,
) -> Result<(), ReadRefusal>
    requires { IsSectionWithin text.now section.now }
    ensures ok { (modules : List ModuleValue) → IsCallable callable.now modules → OnOk result (section_calls_fault modules (section_at text.now section.now) ≡ None) }
    ensures err { (modules : List ModuleValue) → IsCallable callable.now modules → IfErr result (λ e. IsRefusal e (section_calls_fault modules (section_at text.now section.now))) }
{
    for line in section.body.items() {
        match check_call(alloc, keys, text, callable, line.items()) {
            Ok(()) => {}
            Err(refusal) => return Err(refusal),
        }
    }
    Ok(())
}

/// The first fault of the calls of all sections.
pub fn check_calls<'a>(
    alloc: Global,
    keys: NameKeys,
    text: &'a [u8],
    callable: &Callable<'a>,
    sections: &[Section],
) -> Result<(), ReadRefusal>
    requires within { AreWithin text.now sections.now }
    requires known { IsCallable callable.now (plain_modules (sections_at text.now sections.now)) }
    ensures ok { OnOk result (calls_fault (sections_at text.now sections.now) ≡ None) }
    ensures err { IfErr result (λ e. IsRefusal e (calls_fault (sections_at text.now sections.now))) }
{
    for section in sections {
        match check_section(alloc, keys, text, callable, section) {
            Ok(()) => {}
            Err(refusal) => return Err(refusal),
        }
    }
    Ok(())
}
