//! The laws of what an input demands of a form that answers line by line, and of how runs end: each
//! the contract of a function that does nothing.
ghost use Rattle.std.specs.Prelude.{◌≡◌, ℕ, ◌++◌, List};
ghost use Rattle.cds_base.specs.Counts.{Rose};
ghost use Rattle.line_forms.specs.Demand.{Faulty, line_demand};
ghost use Rattle.line_forms.specs.Readings.{by_lines};
ghost use Rattle.cds_base.specs.RunEnds.{IsFront, Run};
ghost use Rattle.line_forms.specs.Runs.{Ended, NoCallFailed};
ghost use Rattle.line_forms.specs.declared.endings.Status.{Status as Status'};

use crate::LineForm;

/// What is due of lines is due whatever follows.
pub fn bodies_stay<F: LineForm>()
    ensures { (state : F.State) (xs ys : List ℕ)
        → IsFront (line_demand F.rule state xs).body (line_demand F.rule state (xs ++ ys)).body }
{}

/// A fault of lines that shows ends what is due.
pub fn shown_faults_stay<F: LineForm>()
    ensures { (state : F.State) (xs ys : List ℕ) → (line_demand F.rule state xs).verdict ≡ Faulty
        → line_demand F.rule state (xs ++ ys) ≡ line_demand F.rule state xs }
{}

/// A run in which neither count of failures rose ends as one in which no call failed.
pub fn calm_runs_meet_no_failed_call<F: LineForm>()
    ensures { (state : F.State) (run : Run) (status : Status')
        → Ended (by_lines F.rule state) run status
        → ¬ (Rose run.reads run.reads')
        → ¬ (Rose run.writes run.writes') → NoCallFailed status }
{}
