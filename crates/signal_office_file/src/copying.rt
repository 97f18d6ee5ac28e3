//! The office of a file, copied: the log into the database file, and that file's bytes, block by
//! block, into a sink.

ghost use Rattle.std.specs.Prelude.{◌≡◌, ◌<◌, length, IsTrue, IfErr, OnOk};
ghost use Rattle.std.specs.Io.KnownBytes.{Appends};
ghost use Rattle.office_http_framing.specs.Ends.{Grows};
ghost use Rattle.sqlite_disk.specs.Disk.{Holds};
ghost use Rattle.signal_office_file.specs.Ended.{EndsOver, IsUncopied, copy_work};
ghost use Rattle.signal_office_file.specs.Copying.{CopyBreaksOff, StaysAsRead};

use crate::ended::Ended;
use crate::opening::{close_office, open_file};
use office_http_framing::ends::{Sink, write_all};
use signal_office_faults::Fault;
use sqlite::Options;
use sqlite_disk::{Disk, Files};
use std::alloc::Global;

/// Opens the office in the two files and closes it, so that its log is copied into the database
/// file, and then writes the bytes of that file to the sink: they alone are the whole office. If
/// the files were closed, the copy fails with `Store` if the file can't be read, `Memory` before
/// any byte is written, or `Write` if the sink fails or takes no byte.
pub fn copied_in<D: Disk + Drop, W: Sink>(
    alloc: Global,
    files: Files<D>,
    options: Options,
    out: &mut W,
) -> Ended<Result<(), Fault>, D>
    ensures { EndsOver files (copy_work (W.told out.old) (W.told out.new)) result }
{
    let office = match open_file(alloc, files, options) {
        Ok(office) => office,
        Err((fault, left)) => return Ended::Refused(fault, left),
    };
    match close_office(office) {
        Ok(mut files) => {
            let done = copy_all(alloc, &mut files.db, out);
            Ended::Closed(done, files)
        }
        Err((fault, left)) => Ended::Unclosed(fault, left),
    }
}

/// How many bytes are read at a time, at most: 1 MiB.
const BLOCK: usize = 1_048_576;

/// Fills the block with the bytes of a file from the offset `at` on, and writes them to the sink.
/// It fails with `Store` if they can't be read, and with `Write` if the sink fails or takes no
/// byte.
fn copy_block<D: Disk, W: Sink>(
    file: &mut D,
    at: usize,
    block: &mut [u8],
    out: &mut W,
) -> Result<(), Fault>
    requires usable { IsTrue (D.Disk.is_usable file.old) }
    requires some { 0 < length block.old }
    ensures copied { OnOk result (Appends (W.told out.old).bytes (W.told out.new).bytes block.new) }
    ensures held { OnOk result (IsTrue (D.Disk.is_clean file.new) →
        Holds (D.Disk.seen file.old) at block.new) }
    ensures counts { Grows (W.told out.old).counts (W.told out.new).counts }
    ensures fault { IfErr result (CopyBreaksOff (W.told out.old) (W.told out.new)) }
    ensures read { StaysAsRead D.Disk file.old file.new }
{
    if file.read_at(at, block).is_err() {
        return Err(Fault::Store);
    }
    match write_all(out, block) {
        Ok(()) => Ok(()),
        Err(_) => Err(Fault::Write),
    }
}

/// Writes the first `len` bytes of a file to the sink, in order, at most a block at a time. It
/// fails with `Store` or `Write`.
fn copy_blocks<D: Disk, W: Sink>(
    file: &mut D,
    len: usize,
    block: &mut [u8],
    out: &mut W,
) -> Result<(), Fault>
    requires usable { IsTrue (D.Disk.is_usable file.old) }
    requires some { 0 < length block.old }
    requires whole { IsTrue (D.Disk.is_clean file.old) → len ≡ length (D.Disk.seen file.old) }
    ensures copied { OnOk result (IsTrue (D.Disk.is_clean file.new) →
        Appends (W.told out.old).bytes (W.told out.new).bytes (D.Disk.seen file.old)) }
    ensures fault { IfErr result (CopyBreaksOff (W.told out.old) (W.told out.new)) }
    ensures read { StaysAsRead D.Disk file.old file.new }
{
    let mut at = 0;
    while at < len {
        let size = block.len().min(len - at);
        match copy_block(file, at, &mut block[..size], out) {
            Ok(()) => at += size,
            Err(fault) => return Err(fault),
        }
    }
    Ok(())
}

/// Writes all bytes of a file to the sink, from the first to the last. It fails with `Store`, with
/// `Memory` before any byte is written, or with `Write`.
fn copy_all<D: Disk, W: Sink>(alloc: Global, file: &mut D, out: &mut W) -> Result<(), Fault>
    requires { IsTrue (D.Disk.is_usable file.old) }
    // On a clean disk, one that has returned what was written, the sink took all bytes of the file.
    ensures copied { OnOk result (IsTrue (D.Disk.is_clean file.new) →
        Appends (W.told out.old).bytes (W.told out.new).bytes (D.Disk.seen file.old)) }
    ensures fault { IfErr result (IsUncopied (W.told out.old) (W.told out.new)) }
    // The file is as it was, also after a stop.
    ensures read { StaysAsRead D.Disk file.old file.new }
{
    let Ok(len) = file.len() else {
        return Err(Fault::Store);
    };
    let mut block = Vec::new(alloc);
    if block.resize(BLOCK, 0).is_err() {
        return Err(Fault::Memory);
    }
    copy_blocks(file, len, &mut block, out)
}
