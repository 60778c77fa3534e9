// The segments in a folder of the operating system. No clause sees its entries: what these bodies
// say of them has to be believed.
use crate::names::number_in;
use std::{fs, io};

// The number of an entry of a folder, if it is a file whose name is one. An entry that is no file
// and has such a name is an error: nobody knows what reading it does.
fn number_of(entry: io::Result<fs::DirEntry>) -> io::Result<Option<u64>> {
    let entry = match entry {
        Ok(entry) => entry,
        Err(error) if error.kind() == io::ErrorKind::InvalidFilename => return Ok(None),
        Err(error) => return Err(error),
    };
    let Some(number) = number_in(entry.file_name()) else {
        return Ok(None);
    };
    if entry.file_type()?.is_file() {
        Ok(Some(number))
    } else {
        Err(io::Error::from(io::ErrorKind::InvalidInput))
    }
}

/// The greatest number of a segment in the folder, or 0. A name that is no text is no number.
pub fn greatest(rt: &HostRuntime, folder: &str) -> io::Result<u64> {
    let mut most = 0;
    for entry in fs::read_dir(rt, folder)? {
        if let Some(number) = number_of(entry)? {
            most = most.max(number);
        }
    }
    Ok(most)
}

/// Whether a call was not done since memory ran out.
pub fn is_want(error: &io::Error) -> bool {
    error.kind() == io::ErrorKind::OutOfMemory
}
