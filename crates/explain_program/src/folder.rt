// What a folder has of the journal of a house, and the journal that this is.
ghost use Rattle.std.specs.Prelude.{◌≡◌, ◌<◌, ◌+◌, ◌^◌, ◌++◌, ◌∷◌, [], ℕ, List, length, IfOk, OnOk};
ghost use Rattle.explain_program.specs.Folders.{EndsFolder, HasReadAll, HasReadFirst, IsRead};
ghost use Rattle.explain_program.specs.Texts.{missing_said, why_text};
ghost use Rattle.house_logs.specs.Reads.{IfFault};

use cds_stamps::AllocOr;
use cell_script::Octets;
use house_logs::{HouseLog, LogFault, LogReader};
use script_answers::push_number;
use std::alloc::{AllocError, Global};

/// How the segments of a folder end.
#[derive(Clone, Copy, Debug, PartialEq, Eq, Drop)]
pub enum FolderEnd {
    /// With the last one that is there.
    Whole,
    /// The next one is missing, and a later one is there.
    Missing,
}

/// What a folder has of the journal of a house: the octets of its segments, from 1 on, and how
/// these end.
#[derive(Drop)]
pub struct FolderOctets {
    pub segments: Vec<Octets>,
    pub end: FolderEnd,
}

/// Why the journal of a folder is not read to its end.
#[derive(Clone, Copy, Debug, PartialEq, Eq, Drop)]
pub enum FolderFault {
    /// The segment of this number is not there, and a later one is.
    Missing(u64),
    BadLog(LogFault),
}

// Adds that a segment is missing.
fn push_missing(text: &mut Vec<u8>, segment: u64) -> Result<(), AllocError>
    ensures { OnOk result (text.new.items ≡ text.old.items ++ missing_said segment) }
{
    text.extend_from_slice(b"segment ")?;
    push_number(text, segment)?;
    text.extend_from_slice(b" is missing")?;
    Ok(())
}

impl FolderFault {
    /// Adds it in words.
    pub(crate) fn push(self, text: &mut Vec<u8>) -> Result<(), AllocError>
        ensures { OnOk result (text.new.items ≡ text.old.items ++ why_text self) }
    {
        match self {
            FolderFault::Missing(segment) => push_missing(text, segment),
            FolderFault::BadLog(fault) => fault.push(text),
        }
    }
}

/// The journal of a folder, if a house was made there, up to a fault, if there is one.
#[derive(Drop)]
pub(crate) struct FolderLog {
    pub(crate) log: Option<HouseLog>,
    pub(crate) fault: Option<FolderFault>,
}

// Reads the octets of the next segment.
fn read_next(
    alloc: Global,
    reader: &mut LogReader,
    octets: &Octets,
) -> Result<(), AllocOr<LogFault>>
    ensures read { (segments : List (List ℕ)) → HasReadAll segments reader.old
        → OnOk result (HasReadAll (segments ++ octets.now ∷ []) reader.new) }
    ensures stopped { (segments rest : List (List ℕ)) → HasReadAll segments reader.old
        → length segments + 1 < 2 ^ 64 → IfFault result (λ fault.
        HasReadFirst (segments ++ octets.now ∷ rest) fault reader.new) }
{
    reader.read(alloc, octets.list())
}

// Reads the octets of segments.
fn read_segments(
    alloc: Global,
    reader: &mut LogReader,
    segments: &[Octets],
) -> Result<(), AllocOr<LogFault>>
    requires { HasReadAll [] reader.old }
    ensures read { OnOk result (HasReadAll segments.now reader.new) }
    ensures stopped { IfFault result (λ fault. HasReadFirst segments.now fault reader.new) }
{
    for octets in segments {
        read_next(alloc, reader, octets)?;
    }
    Ok(())
}

// The segment of a folder that is missing, if one is.
fn missing_in(folder: &FolderOctets) -> Option<FolderFault>
    ensures { EndsFolder folder.now result }
{
    match folder.end {
        FolderEnd::Whole => None,
        FolderEnd::Missing => Some(FolderFault::Missing(folder.segments.len() as u64 + 1)),
    }
}

/// The journal of a folder.
pub(crate) fn read_folder(alloc: Global, folder: &FolderOctets) -> Result<FolderLog, AllocError>
    ensures { IfOk result (IsRead folder.now) }
{
    let mut reader = LogReader::new(alloc);
    match read_segments(alloc, &mut reader, &folder.segments) {
        Ok(()) => Ok(FolderLog {
            log: reader.finish(),
            fault: missing_in(folder),
        }),
        Err(AllocOr::Fault(fault)) => Ok(FolderLog {
            log: reader.finish(),
            fault: Some(FolderFault::BadLog(fault)),
        }),
        Err(AllocOr::OutOfMemory) => Err(AllocError),
    }
}
