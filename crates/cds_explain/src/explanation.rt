// The journals of houses, explained.
ghost use Rattle.std.specs.Prelude.{◌≡◌, IfOk};
ghost use Rattle.cds_explain.specs.Explained.{Explains, ExplainsFirst, ExplainsUpTo};
ghost use Rattle.cds_explain.specs.declared.cause.Reason.{Reason as Reason'};
ghost use Rattle.cds_explain.specs.declared.explanation.Ending.TheVariants.{Whole, Unexplained};

use crate::cause::{Cause, Reason};
use crate::explainer::Explainer;
use cds_stamps::AllocOr;
use house_logs::HouseLog;
use std::alloc::{AllocError, Global};

/// How far journals were explained.
#[derive(Drop)]
pub enum Ending {
    Whole,
    Unexplained(Reason),
    /// The script would have more lines than a script can have.
    TooLong,
}

/// The lines of a script, and how far they explain the journals.
#[derive(Drop)]
pub struct Explanation {
    pub script: Vec<u8>,
    pub ending: Ending,
}

// What ends an explanation before the ends of the journals.
fn ending_of(reason: Reason) -> Ending
    ensures early { result ≡ Whole → ⊥ }
    ensures reason { (told : Reason') → result ≡ Unexplained told → told ≡ reason }
{
    if let Cause::TooManyLines = &reason.cause {
        return Ending::TooLong;
    }
    Ending::Unexplained(reason)
}

/// A script that explains journals, or the entries up to the first one that it does not explain.
pub fn explain(alloc: Global, logs: &[HouseLog]) -> Result<Explanation, AllocError>
    ensures sound { IfOk result
        (λ e. e.ending ≡ Whole → Explains e.script.items logs.now) }
    ensures partly { IfOk result (λ e. ExplainsFirst e.script.items logs.now) }
    ensures reason { IfOk result
        (λ e. (reason : Reason') → e.ending ≡ Unexplained reason
        → ExplainsUpTo e.script.items logs.now reason) }
{
    let mut explainer = Explainer::new(alloc, logs)?;
    let ended = explainer.run(alloc, logs);
    let script = explainer.into_script();
    match ended {
        Ok(()) => Ok(Explanation {
            script,
            ending: Ending::Whole,
        }),
        Err(AllocOr::Fault(reason)) => Ok(Explanation {
            script,
            ending: ending_of(reason),
        }),
        Err(AllocOr::OutOfMemory) => Err(AllocError),
    }
}
