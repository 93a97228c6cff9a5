//! Turns an index into the bytes of a file, and opens such bytes again.

ghost use Rattle.std.specs.Prelude.{◌≡◌, ◌≢◌, ◌<◌, ◌≤◌, IfErr, IfOk, OnErr, OnOk, drop, length, take};
ghost use Rattle.bsi_ffi.specs.Calls.{file_refusal, IsFileRefusal, IsSerialized};
ghost use Rattle.bsi_ffi.specs.OpenIndex.{IsOpenIndex};
ghost use Rattle.bsi_storage.specs.Saved.{IsFileOf};

use crate::open_index::OpenIndex;
use crate::refusal::Refusal;
use bsi_input::describe_schema;
use bsi_storage::{MAX_NOTES, OpenFault, read_index, write_index};
use std::alloc::Global;

/// An index, and the notes that were saved with it.
#[derive(Drop)]
pub(crate) struct NotedIndex {
    pub(crate) opened: OpenIndex,
    pub(crate) notes: Vec<u8>,
}

/// Writes the file of the index with these notes, if the buffer is large enough, and how many they are.
pub(crate) fn serialize(
    alloc: Global,
    opened: &OpenIndex,
    notes: &[u8],
    bytes: &mut [u8],
    size: &mut usize,
) -> Result<(), Refusal>
    ensures serialized { IsSerialized opened.now notes.now bytes.new size.new result }
    ensures size_unchanged { IfErr result (λ why. why ≢ Refusal.BufferTooSmall → size.new ≡ size.old) }
    ensures bytes_unchanged { OnErr result (bytes.new ≡ bytes.old) }
    ensures rest_unchanged { OnOk result (drop size.new bytes.new ≡ drop size.new bytes.old) }
{
    if notes.len() > MAX_NOTES {
        return Err(Refusal::LongNotes);
    }
    let mut file = Vec::new(alloc);
    // A vector takes each byte, unless memory is refused.
    if write_index(alloc, opened.index(), notes, opened.kinds(), &mut file).is_err() {
        return Err(Refusal::NoMemory);
    }
    copy_out(&file, bytes, size)
}

/// Copies bytes to a buffer, if it is large enough, and writes how many they are.
pub(crate) fn copy_out(from: &[u8], out: &mut [u8], size: &mut usize) -> Result<(), Refusal>
    ensures size { size.new ≡ length from.now }
    ensures copied { OnOk result (take size.new out.new ≡ from.now) }
    ensures within { OnOk result (size.new ≤ length out.new) }
    ensures rest_unchanged { OnOk result (drop size.new out.new ≡ drop size.new out.old) }
    ensures out_unchanged { OnErr result (out.new ≡ out.old) }
    ensures short { OnErr result (length out.new < size.new) }
    ensures refused { IfErr result (λ why. why ≡ Refusal.BufferTooSmall) }
{
    *size = from.len();
    if out.len() < from.len() {
        return Err(Refusal::BufferTooSmall);
    }
    out[..from.len()].copy_from_slice(from);
    Ok(())
}

/// Opens the index of a file. It writes how many of the first bytes are one, also where others follow.
pub(crate) fn open_bytes(
    alloc: Global,
    bytes: &[u8],
    whole: &mut u64,
) -> Result<NotedIndex, Refusal>
    requires { whole.old ≡ 0 }
    ensures loaded { IfOk result (λ loaded. IsFileOf bytes.now loaded.opened.table loaded.notes.items
        loaded.opened.kinds) }
    ensures describes { IfOk result (λ loaded. IsOpenIndex loaded.opened) }
    ensures whole { OnOk result (whole.new ≡ length bytes.now) }
    ensures refused { IfErr result (IsFileRefusal bytes.now whole.new) }
{
    let mut rest = bytes;
    let loaded = match read_index(alloc, &mut rest) {
        Ok(loaded) => loaded,
        Err(fault) => return Err(refusal_of(fault)),
    };
    *whole = loaded.bytes;
    if let Some(fault) = loaded.fault {
        return Err(refusal_of(fault));
    }
    let text = describe_schema(alloc, loaded.index.schema(), loaded.index.limit())?;
    let mut opened = OpenIndex::new(alloc, text, loaded.index);
    opened.set_kinds(alloc, loaded.kinds)?;
    Ok(NotedIndex {
        opened,
        notes: loaded.notes,
    })
}

/// Returns the refusal of bytes that are not all those of an index.
fn refusal_of(fault: OpenFault) -> Refusal
    ensures { result ≡ file_refusal fault }
{
    match fault {
        OpenFault::NotAnIndex => Refusal::NotAnIndex,
        OpenFault::OtherVersion => Refusal::OtherVersion,
        OpenFault::CutShort => Refusal::CutShort,
        OpenFault::Damaged => Refusal::Damaged,
        // Bytes in memory are read without a fault, so it is memory that was refused.
        OpenFault::Read | OpenFault::NoMemory => Refusal::NoMemory,
    }
}
