// The pointer of a session.
ghost use Rattle.std.specs.Prelude.{◌≡◌, None, Option, Some};
ghost use Rattle.std.specs.Coded.{coded_option};
ghost use Rattle.std.specs.Option.{option_map};
ghost use Rattle.house_sessions.specs.contracts.session.Session.{the_row};
ghost use Rattle.house_sessions.specs.declared.session.Session.{Session as Session'};
ghost use Rattle.house_handles.specs.Held.{held_at};

use house_sessions::Session;
use loose_boxes::Loose;
use std::alloc::Global;
use std::marker::Model;
use std::mem::replace;

/// What a program in another language holds: the pointer of a session, or null.
#[repr(C)]
#[derive(Drop)]
pub struct HouseHandle {
    at: *mut u8,
    pub ghost held: { Option Session' } by { coded_option the_row.coded },
}

impl Model for HouseHandle {
    ghost also_owns = { λ h. held_at h.at h.held };
}

impl HouseHandle {
    // One that holds nothing.
    fn empty() -> HouseHandle
        ensures { result.held ≡ None }
    {
        HouseHandle {
            at: std::ptr::null_mut(),
        }
    }

    // One that holds this session.
    fn of(session: Loose<Session>) -> HouseHandle
        ensures { result.held ≡ Some session.value }
    {
        let Loose { at } = session;
        HouseHandle { at: at as *mut u8 }
    }

    // The session that it holds.
    fn into_loose(self) -> Option<Loose<Session>>
        ensures { option_map (λ l. l.value) result ≡ self.held }
    {
        let HouseHandle { at } = self;
        if at.is_null() {
            None
        } else {
            Some(Loose {
                at: at as *mut Session,
            })
        }
    }

    /// Takes the session out: the handle holds nothing then.
    pub fn take(&mut self, alloc: Global) -> Option<Box<Session>>
        ensures taken { option_map (λ s. s.value) result ≡ self.old.held }
        ensures empty { self.new.held ≡ None }
    {
        let held = replace(self, HouseHandle::empty());
        match held.into_loose() {
            Some(session) => Some(session.into_box(alloc)),
            None => None,
        }
    }

    /// Holds a session. What it held before is lost, so take that out first.
    pub fn hold(&mut self, session: Box<Session>)
        ensures { self.new.held ≡ Some session.value }
    {
        *self = HouseHandle::of(Loose::of(session));
    }
}
