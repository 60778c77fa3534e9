//! The forms of the program: a script replayed over one cell or checked, a script that is made,
//! towers as octets and as text, and images in format 2 or audited. It knows neither standard input
//! nor standard output.
#![tactic(auto)]

mod audits;
mod check;
mod checking;
mod forms;
pub mod laws;
mod limits;
mod load;
mod replay;
mod towers;
mod untowers;
mod whole;

pub use forms::Form;
pub use limits::{
    LAST_DIR, MOST_KEPT, MOST_ROUNDS, MOST_TOWERS, MOST_WHOLE, TOWER_SIGHT, WHOLE_SIGHT,
};
pub use line_forms::Status;
pub use replay::{new_disks, run, run_journal};
pub use reply_buffer::{LONGEST_TOWER, MOST_WAITING};
