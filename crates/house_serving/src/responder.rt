// What makes a reply of a line.
ghost use Rattle.std.specs.Prelude.{ℕ, List, IfOk};
ghost use Rattle.house_serving.specs.Turns.{Said};
ghost use Rattle.house_serving.specs.Replies.{said_in};

use std::alloc::{AllocError, Global};

/// What a line came to: its answer, and the record that has to be durable before anything of that
/// is said.
#[derive(Drop)]
pub struct Reply {
    pub text: Vec<u8>,
    pub record: Option<Vec<u8>>,
}

/// What makes a reply of a line, and changes by it.
pub trait Responder {
    /// It makes this of the line of this number, and is so after it.
    ghost responds: { Self → (number : ℕ) → (line : List ℕ) → Said → Self → Type 0 };

    /// Makes a reply of a line. After it ran out of memory it is used no more.
    fn respond(&mut self, alloc: Global, number: u32, line: &[u8]) -> Result<Reply, AllocError>
        ensures { IfOk result (λ r. responds self.old number line.now (said_in r) self.new) };
}
