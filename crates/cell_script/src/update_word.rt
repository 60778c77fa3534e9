// The updates of an entry, by the words that lines have for them.
ghost use Rattle.std.specs.Prelude.{◌≡◌, ◌≤◌, None, IfSome, IfNone};
ghost use Rattle.cds_stamps.specs.Outcomes.{Answers};
ghost use Rattle.cell_script.specs.CommandRows.{update_among, update_in, update_row, update_words};
ghost use Rattle.cell_script.specs.WordForms.{least_of};

use crate::words::{Parsed, Words};
use directory::Update;
use std::alloc::Global;

/// What a line does to an entry of a directory, as its first word says.
#[derive(Clone, Copy)]
pub enum UpdateWord {
    Create,
    Link,
    Delete,
    Add,
    Remove,
    Put,
    Clear,
}

impl UpdateWord {
    /// The update of a first word. None, if this is the first word of no update.
    pub fn named(word: &[u8]) -> Option<UpdateWord>
        ensures some { IfSome result (λ kind. word.now ≡ (update_row kind).word) }
        ensures none { IfNone result (update_among update_words word.now ≡ None) }
    {
        if word == b"create".as_slice() {
            Some(UpdateWord::Create)
        } else if word == b"link".as_slice() {
            Some(UpdateWord::Link)
        } else if word == b"delete".as_slice() {
            Some(UpdateWord::Delete)
        } else if word == b"add".as_slice() {
            Some(UpdateWord::Add)
        } else if word == b"remove".as_slice() {
            Some(UpdateWord::Remove)
        } else if word == b"put".as_slice() {
            Some(UpdateWord::Put)
        } else if word == b"clear".as_slice() {
            Some(UpdateWord::Clear)
        } else {
            None
        }
    }

    /// How many words are after the directory.
    pub fn count(self) -> usize
        ensures count { result ≡ least_of (update_row self).forms }
        ensures few { result ≤ 3 }
    {
        match self {
            UpdateWord::Create | UpdateWord::Delete => 1,
            UpdateWord::Link | UpdateWord::Clear => 2,
            UpdateWord::Add | UpdateWord::Remove | UpdateWord::Put => 3,
        }
    }

    /// What the words after the directory say.
    #[tactic(auto, using(crate::proofs::Updates::create_reads, crate::proofs::Updates::link_reads, crate::proofs::Updates::delete_reads, crate::proofs::Updates::add_reads, crate::proofs::Updates::remove_reads, crate::proofs::Updates::put_reads, crate::proofs::Updates::clear_reads))]
    pub fn read(self, alloc: Global, words: &mut Words<'_>) -> Parsed<Update>
        ensures { Answers result (update_in self words.old) }
    {
        match self {
            UpdateWord::Create => Ok(Update::Create(words.simple_name(alloc)?)),
            UpdateWord::Link => {
                Ok(Update::MakeLink(words.simple_name(alloc)?, words.full_name(alloc)?))
            }
            UpdateWord::Delete => Ok(Update::Delete(words.simple_name(alloc)?)),
            UpdateWord::Add => Ok(Update::Add(
                words.simple_name(alloc)?,
                words.attr_name(alloc)?,
                words.value(alloc)?,
            )),
            UpdateWord::Remove => Ok(Update::Remove(
                words.simple_name(alloc)?,
                words.attr_name(alloc)?,
                words.value(alloc)?,
            )),
            UpdateWord::Put => Ok(Update::Put(
                words.simple_name(alloc)?,
                words.attr_name(alloc)?,
                words.value(alloc)?,
            )),
            UpdateWord::Clear => {
                Ok(Update::Clear(words.simple_name(alloc)?, words.attr_name(alloc)?))
            }
        }
    }
}
