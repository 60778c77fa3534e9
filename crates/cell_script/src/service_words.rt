// The words of the commands of the name service.
#![tactic(auto, unfolding(crate::specs::WordForms::take_words))]

ghost use Rattle.cell_script.specs.NameService.{interface_of, element_interface_of, interface_or_none_of, bindings_of, objects_of, object_of, protocols_of};
ghost use Rattle.cell_script.specs.NameService.{priority_of, note_of};
ghost use Rattle.cell_script.specs.WordForms.{One, Takes, take_words};

use crate::lists::{Note, StringBindings, Uuids};
use crate::service_word;
use crate::words::{Parsed, Words};
use std::alloc::Global;
use tower_codec::Interface;
use uuid::Uuid;

impl<'a> Words<'a> {
    /// An interface: UUID, `:`, major version, `.` and minor version.
    pub fn interface(&mut self) -> Parsed<Interface>
        ensures { Takes result self.new (take_words (One interface_of) self.old) }
    {
        let word = self.needed()?;
        self.said(service_word::interface(word))
    }

    /// The interface of an element, or `default` for none.
    pub fn element_interface(&mut self) -> Parsed<Option<Interface>>
        ensures { Takes result self.new (take_words (One element_interface_of) self.old) }
    {
        let word = self.needed()?;
        self.said(service_word::element_interface(word))
    }

    /// An interface, or `-` for none.
    pub fn interface_or_none(&mut self) -> Parsed<Option<Interface>>
        ensures { Takes result self.new (take_words (One interface_or_none_of) self.old) }
    {
        let word = self.needed()?;
        self.said(service_word::interface_or_none(word))
    }

    /// String bindings without object parts, with commas between, or `-` for none.
    pub fn bindings(&mut self, alloc: Global) -> Parsed<StringBindings>
        ensures { Takes result self.new (take_words (One bindings_of) self.old) }
    {
        let word = self.needed()?;
        let bindings = service_word::bindings(alloc, word)?;
        self.said(bindings)
    }

    /// UUIDs other than nil, with commas between, or `-` for none.
    pub fn objects(&mut self, alloc: Global) -> Parsed<Uuids>
        ensures { Takes result self.new (take_words (One objects_of) self.old) }
    {
        let word = self.needed()?;
        let objects = service_word::objects(alloc, word)?;
        self.said(objects)
    }

    /// A UUID, or `-` for nil.
    pub fn object(&mut self) -> Parsed<Uuid>
        ensures { Takes result self.new (take_words (One object_of) self.old) }
    {
        let word = self.needed()?;
        self.said(service_word::object(word))
    }

    /// The protocol sequences, with a comma between: whether TCP is one, and whether UDP is.
    pub fn protocols(&mut self) -> Parsed<(bool, bool)>
        ensures { Takes result self.new (take_words (One protocols_of) self.old) }
    {
        let word = self.needed()?;
        self.said(service_word::protocols(word))
    }

    /// A priority, 0 to 255.
    pub fn priority(&mut self) -> Parsed<u8>
        ensures { Takes result self.new (take_words (One priority_of) self.old) }
    {
        let word = self.needed()?;
        self.said(service_word::priority(word))
    }

    /// An annotation of one word, or `-` for the empty one.
    pub fn note(&mut self, alloc: Global) -> Parsed<Note>
        ensures { Takes result self.new (take_words (One note_of) self.old) }
    {
        let word = self.needed()?;
        let note = service_word::note(alloc, word)?;
        self.said(note)
    }
}
