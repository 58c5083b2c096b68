// The files of a show's recordings.
ghost use Rattle.std.specs.Prelude.{◌≤◌, length, IfOk};
ghost use Rattle.osc_model.specs.Limits.{max_recording};

use crate::report::report_unread;
use osc_edge::FileSource;
use osc_ends::status::REFUSED;
use osc_ends::{Whole, read_input};
use osc_record::MAX_RECORDING;
use std::alloc::{AllocError, Global};
use std::fs;

/// The bytes of a recording; the `Err` inside is the status, where it can't be read, which is
/// reported.
pub fn read_recording(rt: &HostRuntime, file: &str) -> Result<Result<Vec<u8>, u8>, AllocError>
    ensures { IfOk result (λ read. IfOk read (λ bytes. length bytes.items ≤ max_recording)) }
{
    let alloc = rt.alloc();
    let mut source = FileSource::at(rt, String::from_str(alloc, file)?);
    match read_input(alloc, MAX_RECORDING as usize, &mut source) {
        Ok(Whole::Bytes(bytes)) if bytes.len() <= MAX_RECORDING as usize => Ok(Ok(bytes)),
        Ok(_) => {
            eprintln!(rt;
                "oscstage: {file} has over 1 GiB, which is more than a recording may have"
            ).ok();
            Ok(Err(REFUSED))
        }
        Err(status) => {
            report_unread(rt, file);
            Ok(Err(status))
        }
    }
}

/// The name of the part with this number, counted from 1.
pub fn part_name(alloc: Global, file: &str, part: u32) -> Result<String, AllocError> {
    if part == 1 {
        String::from_str(alloc, file)
    } else {
        format!(in alloc; "{file}.{part}")
    }
}

/// The name of the recording in which a show goes on after the one of this name.
pub(crate) fn file_after(alloc: Global, file: &str) -> Result<String, AllocError> {
    match file.rsplit_once('.') {
        Some((first, part)) if !first.is_empty() => match part.parse::<u32>() {
            Ok(part) if 2 <= part && part < u32::MAX => part_name(alloc, first, part + 1),
            _ => part_name(alloc, file, 2),
        },
        _ => part_name(alloc, file, 2),
    }
}

/// Whether there is a file of this name that holds bytes.
pub fn is_there(rt: &HostRuntime, name: &str) -> bool {
    match fs::metadata(rt, name) {
        Ok(facts) => facts.is_file() && facts.len() > 0,
        Err(_) => false,
    }
}
