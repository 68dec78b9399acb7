//! What is written of a fault: a line, or an object in JSON.

ghost use Rattle.std.specs.Prelude.{◌≡◌, ◌++◌, OnOk};
ghost use Rattle.dwv_addr.specs.Faults.{first_fault_text, placed_fault_text};

use dw_lookup::FirstFault;
use dw_report::{
    put_elf_fault_line, put_elf_fault_object, put_fault_lines, put_fault_object, put_place_line,
    put_place_object,
};
use std::alloc::{AllocError, Global};

/// What is written of a fault at a place.
fn put_placed_fault(
    text: &mut Vec<u8>,
    alloc: Global,
    json: bool,
    fault: &FirstFault,
) -> Result<(), AllocError>
    ensures ok { OnOk result (text.new.items ≡ text.old.items ++ placed_fault_text json fault.now) }
{
    if json {
        return put_place_object(
            text,
            alloc,
            fault.at(),
            fault.attribute(),
            fault.name(),
            fault.code(),
            fault.section(),
        );
    }
    let code = fault.code().as_bytes();
    let name = fault.name().as_bytes();
    let section = fault.section().as_bytes();
    put_place_line(text, code, name, section, fault.at(), fault.attribute())
}

/// What is written of a fault.
pub fn put_first_fault(
    text: &mut Vec<u8>,
    alloc: Global,
    json: bool,
    fault: &FirstFault,
) -> Result<(), AllocError>
    ensures ok { OnOk result (text.new.items ≡ text.old.items ++ first_fault_text json fault.now) }
{
    match fault {
        FirstFault::File(of_file) => {
            if json {
                return put_elf_fault_object(text, alloc, *of_file);
            }
            put_elf_fault_line(text, *of_file)
        }
        FirstFault::Entries(of_entries) => {
            if json {
                return put_fault_object(text, alloc, of_entries);
            }
            put_fault_lines(text, of_entries)
        }
        FirstFault::Lines(_) => put_placed_fault(text, alloc, json, fault),
        FirstFault::Ranges(_) => put_placed_fault(text, alloc, json, fault),
    }
}
