// Faults of a line's words.
use thiserror::Error;

/// Why a line is no command. A word's number and a number of words count from 1.
#[derive(Clone, Copy, Debug, PartialEq, Eq, Drop, Error)]
pub enum ParseFault {
    #[error("unknown command at word {0}")]
    UnknownCommand(usize),
    #[error("{0} words are too few or too many")]
    WrongCount(usize),
    #[error("word {0} is not of its form")]
    BadWord(usize),
}
