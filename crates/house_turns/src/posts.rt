// The text of messages: whole in a record, in pieces in an answer.
ghost use Rattle.std.specs.Prelude.{◌≡◌, ◌++◌, OnOk, option_copied};
ghost use Rattle.script_answers.specs.Texts.{lines_text};
ghost use Rattle.house_turns.specs.HouseReplies.{posts_lines, posts_text};
ghost use Rattle.house_turns.specs.PrivateTurns.{letters_kept, letters_text, posts_in, posts_of_letters};

use crate::said::Posts;
use crate::texts::{push_pieces, push_post};
use cds_stamps::HouseNo;
use clearinghouse::Letters;
use std::alloc::AllocError;

// Adds the lines of a message to each of these houses in an answer.
fn push_each(
    text: &mut Vec<u8>,
    number: u32,
    receivers: &[HouseNo],
    octets: &[u8],
) -> Result<(), AllocError>
    ensures { OnOk result
        (text.new.items ≡ text.old.items ++ letters_text number octets.now receivers.now) }
{
    for to in receivers {
        push_pieces(text, number, *to, octets)?;
    }
    Ok(())
}

// Adds the lines of some messages in an answer.
fn push_letters(
    text: &mut Vec<u8>,
    number: u32,
    letters: Option<&Letters>,
) -> Result<(), AllocError>
    ensures { OnOk result (text.new.items ≡ text.old.items
        ++ lines_text number (posts_lines (posts_of_letters (option_copied letters.entry)))) }
{
    match letters {
        Some(letters) => push_each(text, number, &letters.receivers, &letters.octets),
        None => Ok(()),
    }
}

/// Adds the lines of messages in an answer.
pub(crate) fn push_posts(text: &mut Vec<u8>, number: u32, posts: &Posts) -> Result<(), AllocError>
    ensures { OnOk result
        (text.new.items ≡ text.old.items ++ lines_text number (posts_lines (posts_in posts.now))) }
{
    push_letters(text, number, posts.first.as_ref())?;
    push_letters(text, number, posts.second.as_ref())
}

// Adds the lines of a message to each of these houses in a record.
fn push_each_whole(
    text: &mut Vec<u8>,
    receivers: &[HouseNo],
    octets: &[u8],
) -> Result<(), AllocError>
    ensures { OnOk result
        (text.new.items ≡ text.old.items ++ letters_kept octets.now receivers.now) }
{
    for to in receivers {
        push_post(text, b"post ", *to, octets)?;
    }
    Ok(())
}

// Adds the lines of some messages in a record.
fn push_whole(text: &mut Vec<u8>, letters: Option<&Letters>) -> Result<(), AllocError>
    ensures { OnOk result (text.new.items ≡ text.old.items
        ++ posts_text (posts_of_letters (option_copied letters.entry))) }
{
    match letters {
        Some(letters) => push_each_whole(text, &letters.receivers, &letters.octets),
        None => Ok(()),
    }
}

/// Adds the lines of messages in a record.
pub(crate) fn push_kept(text: &mut Vec<u8>, posts: &Posts) -> Result<(), AllocError>
    ensures { OnOk result (text.new.items ≡ text.old.items ++ posts_text (posts_in posts.now)) }
{
    push_whole(text, posts.first.as_ref())?;
    push_whole(text, posts.second.as_ref())
}
