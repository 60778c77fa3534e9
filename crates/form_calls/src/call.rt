// A call: the words of a form and an input, to what the form says of it.
ghost use Rattle.std.specs.Prelude.{◌≡◌, [], length};
ghost use Rattle.form_calls.specs.Calls.{Ends, IsAnswered, answer_code, put_into};

use crate::ends::{Input, Text};
use crate::words::split_words;
use cell_replay::{Status, run};
use std::alloc::Global;

/// What a form said of an input, and how that ended.
#[derive(Drop)]
pub struct Call {
    pub text: Vec<u8>,
    pub status: Status,
}

// Keeps what a form says of an input.
fn keep(alloc: Global, words: &[u8], input: &[u8], text: &mut Text) -> Status
    requires { text.old ≡ record { octets = []; faults = 0 } }
    ensures { Ends words.now input.now text.new.octets result }
{
    match split_words(alloc, words) {
        Ok(words) => run(alloc, &words, &mut Input::new(input), text),
        Err(fault) => Status::without_words(fault),
    }
}

/// All that a form says of an input. The words of the form are between the spaces of these octets.
pub fn say(alloc: Global, words: &[u8], input: &[u8]) -> Call
    ensures { Ends words.now input.now result.text.items result.status }
{
    let mut text = Text::new(alloc);
    let status = keep(alloc, words, input, &mut text);
    Call {
        text: text.into_octets(),
        status,
    }
}

// The number of an ending where the room is too small for the text.
const NO_ROOM: u32 = 5;

// The number of an ending where memory ran out.
const NO_MEMORY: u32 = 6;

/// What a caller gets who has room for a text.
#[derive(Clone, Copy, Debug, PartialEq, Eq)]
pub struct Answer {
    /// How long the whole text is.
    pub len: usize,
    pub code: u32,
}

/// Puts as much of the front of a text as fits into a room.
pub fn put(text: &[u8], room: &mut [u8])
    ensures { room.new ≡ put_into room.old text.now }
{
    let count = text.len().min(room.len());
    room[..count].copy_from_slice(&text[..count]);
}

impl Call {
    // Its number for a caller who has so much room.
    fn code(&self, room: usize) -> u32
        ensures { result ≡ answer_code room self.now.text.items self.now.status }
    {
        match self.status {
            Status::OutOfMemory | Status::WriteFault => NO_MEMORY,
            _ if room < self.text.len() => NO_ROOM,
            status => u32::from(status.code()),
        }
    }
}

/// Puts what a form says of an input into a room, as much of it as fits.
pub fn say_into(alloc: Global, words: &[u8], input: &[u8], room: &mut [u8]) -> Answer
    ensures { IsAnswered words.now input.now room.old room.new result.len result.code }
{
    let call = say(alloc, words, input);
    let answer = Answer {
        len: call.text.len(),
        code: call.code(room.len()),
    };
    put(&call.text, room);
    answer
}
