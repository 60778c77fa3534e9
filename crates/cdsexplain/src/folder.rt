// The folders of houses: the octets of their segments, by their numbers.

use cds_base::WordsFault;
use cell_script::Octets;
use explain_program::{FolderEnd, FolderOctets, Status};
use file_disk::{greatest, is_want, segment_path};
use std::{fs, io};

/// How a program ends without the words of its command line.
pub(crate) fn without_words(fault: WordsFault) -> Status {
    match fault {
        WordsFault::NoText => Status::Usage,
        WordsFault::OutOfMemory => Status::OutOfMemory,
    }
}

// The status of a read that failed.
fn status_of(error: io::Error) -> Status {
    if is_want(&error) {
        Status::OutOfMemory
    } else {
        Status::ReadFault
    }
}

// The octets of a segment; none, if it is not there.
fn segment_octets(rt: &HostRuntime, folder: &str, number: u64) -> Result<Option<Vec<u8>>, Status> {
    let Ok(path) = segment_path(rt.alloc(), folder, number) else {
        return Err(Status::OutOfMemory);
    };
    match fs::read(rt, path.as_str()) {
        Ok(octets) => Ok(Some(octets)),
        Err(error) if error.kind() == io::ErrorKind::NotFound => Ok(None),
        Err(error) => Err(status_of(error)),
    }
}

// The octets of the segments of a folder, up to the first one that is missing.
fn octets_of(rt: &HostRuntime, folder: &str) -> Result<FolderOctets, Status> {
    let most = match greatest(rt, folder) {
        Ok(most) => most,
        Err(error) => return Err(status_of(error)),
    };
    let mut segments = Vec::new(rt.alloc());
    for before in 0..most {
        let Some(octets) = segment_octets(rt, folder, before + 1)? else {
            return Ok(FolderOctets {
                segments,
                end: FolderEnd::Missing,
            });
        };
        if segments.push(Octets::of(octets)).is_err() {
            return Err(Status::OutOfMemory);
        }
    }
    Ok(FolderOctets {
        segments,
        end: FolderEnd::Whole,
    })
}

/// The octets of folders. There has to be one at least.
pub(crate) fn folders_of(rt: &HostRuntime, words: &[String]) -> Result<Vec<FolderOctets>, Status> {
    if words.is_empty() {
        return Err(Status::Usage);
    }
    let mut folders = Vec::new(rt.alloc());
    for word in words {
        let folder = octets_of(rt, word.as_str())?;
        if folders.push(folder).is_err() {
            return Err(Status::OutOfMemory);
        }
    }
    Ok(folders)
}
