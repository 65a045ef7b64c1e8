//! Notes on areas: folders below the working directory, and standard input.

use crate::lines::note;
use command_base::area_name;
use lsn_core::{AreaFault, NoMemory, StoreArea, StoreFault, Text};
use std::alloc::Global;
use vault::TakeFault;

/// Memory ran out.
pub fn memory_note(alloc: Global) -> Result<Text, NoMemory> {
    note(
        alloc,
        &[b"memory ran out"],
        b"give the program more memory, and try again; a store that it was writing is read anew",
    )
}

/// A call of the system on what has this name failed, or memory ran out. What the system said
/// stands on a line of its own.
pub fn area_note(alloc: Global, name: &[u8], why: AreaFault) -> Result<Text, NoMemory> {
    match why {
        AreaFault::Failed => note(
            alloc,
            &[b"a call of the system failed on ", name],
            b"mend what the system says is wrong there, and try again",
        ),
        AreaFault::NoMemory => memory_note(alloc),
    }
}

/// The same of an area of a store.
pub fn store_note(alloc: Global, fault: StoreFault) -> Result<Text, NoMemory> {
    match fault {
        StoreFault::Failed(area) => area_note(alloc, area_name(area), AreaFault::Failed),
        StoreFault::NoMemory => memory_note(alloc),
    }
}

/// The same of an area that wasn't handed out.
pub fn take_note(alloc: Global, fault: &TakeFault) -> Result<Text, NoMemory> {
    area_note(alloc, fault.area.as_bytes(), fault.why)
}

/// A folder that is to be empty holds a file.
pub fn not_empty_note(alloc: Global, name: &[u8]) -> Result<Text, NoMemory> {
    note(
        alloc,
        &[b"folder ", name, b" is not empty"],
        b"empty it if nothing there is needed, or choose another name",
    )
}
