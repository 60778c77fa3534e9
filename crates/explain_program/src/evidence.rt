// The journals of all folders.
ghost use Rattle.std.specs.Prelude.{◌≡◌, ◌+◌, ◌++◌, ◌∷◌, [], List, length, IfOk, OnOk};
ghost use Rattle.explain_program.specs.declared.folder.FolderOctets.{FolderOctets as FolderOctets'};
ghost use Rattle.std.specs.Option.{option_to_list};
ghost use Rattle.explain_program.specs.Folders.{IsEvidence, fault_at};

use crate::folder::{FolderFault, FolderOctets, read_folder};
use crate::told::PlacedFault;
use house_logs::HouseLog;
use std::alloc::{AllocError, Global};

/// The journals of folders, as far as they are read, and why some are not read to their ends.
#[derive(Drop)]
pub(crate) struct Evidence {
    pub(crate) logs: Vec<HouseLog>,
    pub(crate) faults: Vec<PlacedFault>,
}

// Adds a journal, if there is one.
fn push_log(logs: &mut Vec<HouseLog>, log: Option<HouseLog>) -> Result<(), AllocError>
    ensures { OnOk result (logs.new.items ≡ logs.old.items ++ option_to_list log) }
{
    match log {
        Some(log) => {
            logs.push(log)?;
            Ok(())
        }
        None => Ok(()),
    }
}

// Adds the fault of a folder, if there is one.
fn push_fault(
    faults: &mut Vec<PlacedFault>,
    place: usize,
    fault: Option<FolderFault>,
) -> Result<(), AllocError>
    ensures { OnOk result (faults.new.items ≡ faults.old.items ++ fault_at place fault) }
{
    match fault {
        Some(fault) => {
            faults.push(PlacedFault { place, fault })?;
            Ok(())
        }
        None => Ok(()),
    }
}

impl Evidence {
    // Adds what is read of a folder, which has this place.
    fn add(&mut self, alloc: Global, place: usize, folder: &FolderOctets) -> Result<(), AllocError>
        ensures { (fs : List FolderOctets')
            → IsEvidence fs self.old.logs.items self.old.faults.items → place ≡ length fs + 1
            → OnOk result (IsEvidence (fs ++ folder.now ∷ []) self.new.logs.items
            self.new.faults.items) }
    {
        let read = read_folder(alloc, folder)?;
        push_log(&mut self.logs, read.log)?;
        push_fault(&mut self.faults, place, read.fault)?;
        Ok(())
    }
}

/// The journals of all folders.
pub(crate) fn evidence_of(alloc: Global, folders: &[FolderOctets]) -> Result<Evidence, AllocError>
    ensures { IfOk result (λ e. IsEvidence folders.now e.logs.items e.faults.items) }
{
    let mut evidence = Evidence {
        logs: Vec::new(alloc),
        faults: Vec::new(alloc),
    };
    for (at, folder) in folders.iter().enumerate() {
        evidence.add(alloc, at + 1, folder)?;
    }
    Ok(evidence)
}
