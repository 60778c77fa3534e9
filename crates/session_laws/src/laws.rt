// A law is a function without parameters and with an empty body: its contract is the theorem.
ghost use Rattle.session_laws.specs.Callers.{AreOfFolder, Caller, Lives};

/// The records that a caller has kept are a folder. Take a caller who opens a session from all
/// records of the last segment that he kept, keeps each record that waits before he says so, and
/// may stop at any moment: what he has kept is what the processes of a house leave in a folder.
/// So of such callers all holds that holds of houses that run, as that they are a cell.
pub fn kept_records_are_a_folder()
    ensures { (c : Caller) → Lives c → AreOfFolder c.kept }
{}
