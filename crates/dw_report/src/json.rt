//! The objects of a report in JSON.

ghost use Rattle.std.specs.Prelude.{◌≡◌, ◌++◌, OnOk, IfOk, false};
ghost use Rattle.serde_json.specs.View.{view};
ghost use Rattle.serde_json.specs.Written.{has_float};
ghost use Rattle.dw_report.specs.JsonObjects.{cycle_array as array_of, sound_object, fault_members, fault_object};
ghost use Rattle.dw_report.specs.JsonObjects.{elf_fault_object, object_line, place_object};

use dw_elf::ElfFault;
use dw_image::Fault;
use dw_units::Counts;
use serde_json::{Map, Value, json, put};
use std::alloc::{AllocError, Global};

/// Offsets as an array.
fn cycle_array(alloc: Global, offsets: &[u32]) -> Result<Value, AllocError>
    ensures { IfOk result (λ value. view value ≡ array_of offsets.now) }
{
    let mut items = Vec::new(alloc);
    for offset in offsets {
        items.push(Value::from(*offset))?;
    }
    Ok(Value::Array(items))
}

/// The object of a fault.
fn fault_value(
    alloc: Global,
    at: u32,
    attribute: u16,
    cycle: Value,
    name: &str,
    rule: &str,
    section: &str,
) -> Result<Value, AllocError>
    ensures { IfOk result (λ value.
        view value ≡ fault_members at attribute (view cycle) name.now rule.now section.now) }
{
    let mut members = Map::new(alloc);
    put(&mut members, alloc, "at", Value::from(at))?;
    put(&mut members, alloc, "attribute", Value::from(attribute))?;
    put(&mut members, alloc, "cycle", cycle)?;
    put(
        &mut members,
        alloc,
        "name",
        Value::String(String::from_str(alloc, name)?),
    )?;
    put(
        &mut members,
        alloc,
        "rule",
        Value::String(String::from_str(alloc, rule)?),
    )?;
    put(
        &mut members,
        alloc,
        "section",
        Value::String(String::from_str(alloc, section)?),
    )?;
    put(&mut members, alloc, "sound", Value::Bool(false))?;
    Ok(Value::Object(members))
}

/// The object of sound sections.
fn sound_value(alloc: Global, units: u64, entries: u64, types: u64) -> Result<Value, AllocError>
    ensures { IfOk result (λ value. view value ≡ sound_object units entries types) }
{
    json!(in alloc; {"entries": entries, "sound": true, "types": types, "units": units})
}

/// An object on a line.
pub fn put_object_line(text: &mut Vec<u8>, alloc: Global, value: &Value) -> Result<(), AllocError>
    requires { has_float (view value.now) ≡ false }
    ensures ok { OnOk result (text.new.items ≡ text.old.items ++ object_line (view value.now)) }
{
    let object = value.to_string(alloc)?;
    text.extend_from_slice(object.as_bytes())?;
    text.extend_from_slice(b"\n")
}

/// The counts of sound sections as an object.
pub fn put_sound_object(text: &mut Vec<u8>, alloc: Global, counts: Counts) -> Result<(), AllocError>
    ensures ok { OnOk result (text.new.items
        ≡ text.old.items ++ object_line (sound_object counts.units counts.entries counts.types)) }
{
    let units = counts.units as u64;
    let entries = counts.entries as u64;
    let types = counts.types as u64;
    let value = sound_value(alloc, units, entries, types)?;
    put_object_line(text, alloc, &value)
}

/// A fault as an object.
#[tactic(auto, using(crate::proofs::ObjectLemmas::no_floats))]
pub fn put_fault_object(text: &mut Vec<u8>, alloc: Global, fault: &Fault) -> Result<(), AllocError>
    ensures ok { OnOk result (text.new.items ≡ text.old.items ++ object_line (fault_object fault.now)) }
{
    let value = fault_value(
        alloc,
        fault.at,
        fault.attribute,
        cycle_array(alloc, fault.cycle.as_slice())?,
        fault.rule.name(),
        fault.rule.code(),
        fault.section.name(),
    )?;
    put_object_line(text, alloc, &value)
}

/// A fault without a cycle as an object.
pub fn put_place_object(
    text: &mut Vec<u8>,
    alloc: Global,
    at: u32,
    attribute: u16,
    name: &str,
    rule: &str,
    section: &str,
) -> Result<(), AllocError>
    ensures ok { OnOk result (text.new.items
        ≡ text.old.items ++ object_line (place_object at attribute name.now rule.now section.now)) }
{
    let cycle = cycle_array(alloc, &[])?;
    let value = fault_value(alloc, at, attribute, cycle, name, rule, section)?;
    put_object_line(text, alloc, &value)
}

/// A fault of the file as an object.
pub fn put_elf_fault_object(
    text: &mut Vec<u8>,
    alloc: Global,
    fault: ElfFault,
) -> Result<(), AllocError>
    ensures ok { OnOk result (text.new.items ≡ text.old.items ++ object_line (elf_fault_object fault)) }
{
    let at = u32::from(fault.section);
    let name = fault.rule.name();
    let rule = fault.rule.code();
    put_place_object(text, alloc, at, 0, name, rule, "file")
}
