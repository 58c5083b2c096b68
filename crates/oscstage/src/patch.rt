// The patch that the words name.
use crate::report::report_patch;
use osc_edge::FileSource;
use osc_ends::status::REFUSED;
use osc_ends::{Whole, read_input};
use osc_patch::{MAX_PATCH, Patch, PatchError};
use std::alloc::AllocError;

/// Reads the patch; the `Err` inside is the status, where it can't be read or is refused, which is
/// reported.
pub(crate) fn read_patch(
    rt: &HostRuntime,
    name: &str,
    methods: u32,
) -> Result<Result<Patch, u8>, AllocError> {
    let alloc = rt.alloc();
    let mut source = FileSource::at(rt, String::from_str(alloc, name)?);
    let bytes = match read_input(alloc, MAX_PATCH, &mut source) {
        Ok(Whole::Bytes(bytes)) => bytes,
        Ok(Whole::TooLong) => {
            eprintln!(rt;
                "oscstage: {name} has over 64 MiB, which is more than a patch may have"
            ).ok();
            return Ok(Err(REFUSED));
        }
        Err(status) => {
            eprintln!(rt; "oscstage: {name} can't be read").ok();
            return Ok(Err(status));
        }
    };
    match Patch::read(alloc, &bytes, methods) {
        Ok(patch) => Ok(Ok(patch)),
        Err(PatchError::NoMemory) => Err(AllocError),
        Err(error) => {
            report_patch(rt, name, &error)?;
            Ok(Err(REFUSED))
        }
    }
}
