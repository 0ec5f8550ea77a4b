// Reads the files that the command line names.
use crate::failure::Failure;
use std::fs;

// A file that cannot be read is told of by its name.
pub fn read(rt: &HostRuntime, path: &str) -> Result<Vec<u8>, Failure> {
    fs::read(rt, path).try_map_err(|error| Ok(Failure::Told(format!(in rt.alloc();
        "{path}: {error}"
    )?)))
}
