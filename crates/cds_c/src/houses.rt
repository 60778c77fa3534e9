// The calls of a house.
ghost use Rattle.std.specs.Prelude.{◌≡◌, ◌≢◌, ◌⊎◌, [], IfSome, None, Some, false, is_some, length, true};
ghost use Rattle.form_calls.specs.Calls.{put_into};
ghost use Rattle.house_turns.specs.Openings.{Differs, IsSegmentRecord, MayEnd, Redoes, Resumes, new_house};
ghost use Rattle.house_turns.specs.declared.house.House.{House};
ghost use Rattle.house_sessions.specs.Refusals.{why_no_line, why_not, why_not_first};
ghost use Rattle.house_sessions.specs.declared.fault.SessionFault.TheVariants as why;
ghost use Rattle.house_sessions.specs.Steps.{IsSaid, IsSpent, IsStarted, at_first};
ghost use Rattle.house_sessions.specs.declared.session.Session.{Session as Session'};
ghost use Rattle.cds_c.specs.Codes.{Holds};
ghost use Rattle.cds_c.specs.Codes as codes;

use form_calls::put;
use house_handles::HouseHandle;
use house_sessions::{Session, SessionFault};
use std::alloc::Global;

const OK: u32 = 0;

const NO_ROOM: u32 = 5;

const NO_MEMORY: u32 = 6;

const EMPTY: u32 = 16;

const HELD: u32 = 17;

const NONE_WAITS: u32 = 24;

// The number of a fault.
fn code_of(fault: SessionFault) -> u32
    ensures code { result ≡ codes.code_of fault }
    ensures fails { result ≢ 0 }
    ensures none { result ≡ 18 → fault ≡ why.NoRecord }
{
    match fault {
        SessionFault::OutOfMemory => NO_MEMORY,
        SessionFault::NoRecord => 18,
        SessionFault::NotKept => 19,
        SessionFault::Spent => 20,
        SessionFault::BadLine => 21,
        SessionFault::NotStarted => 22,
        SessionFault::Started => 23,
        SessionFault::NoneWaits => NONE_WAITS,
    }
}

// Puts a session into a handle that holds nothing.
fn hold_first(alloc: Global, handle: &mut HouseHandle, session: Session) -> u32
    requires { handle.old.held ≡ None }
    ensures ok { result ≡ 0 → handle.new.held ≡ Some session }
    ensures memory { result ≢ 0 → (result ≡ 6) × (handle.new.held ≡ None) }
{
    match Box::new(alloc, session) {
        Ok(session) => {
            handle.hold(session);
            OK
        }
        Err(_) => NO_MEMORY,
    }
}

// Whether a handle holds a session, which stays in it.
fn holds(alloc: Global, handle: &mut HouseHandle) -> bool
    ensures same { handle.new.held ≡ handle.old.held }
    ensures none { result ≡ false → handle.old.held ≡ None }
    ensures some { result ≡ true → Holds handle.old.held (λ _. Unit {0}) }
{
    match handle.take(alloc) {
        Some(session) => {
            handle.hold(session);
            true
        }
        None => false,
    }
}

/// A session of a house that has no record yet.
#[unsafe(no_mangle)]
pub extern "C" fn cds_house_new(alloc: Global, handle: &mut HouseHandle) -> u32
    ensures held { (s : Session') → handle.old.held ≡ Some s
        → (result ≡ 17) × (handle.new.held ≡ Some s) }
    ensures ok { handle.old.held ≡ None → result ≡ 0
        → handle.new.held ≡ Some (at_first new_house) }
    ensures failed { handle.old.held ≡ None → result ≢ 0
        → (result ≡ 6) × (handle.new.held ≡ None) }
{
    if holds(alloc, handle) {
        return HELD;
    }
    hold_first(alloc, handle, Session::new(alloc))
}

/// A session of the house whose last segment begins with this record.
#[unsafe(no_mangle)]
pub extern "C" fn cds_house_open(alloc: Global, handle: &mut HouseHandle, record: &[u8]) -> u32
    ensures held { (s : Session') → handle.old.held ≡ Some s
        → (result ≡ 17) × (handle.new.held ≡ Some s) }
    ensures ok { handle.old.held ≡ None → result ≡ 0
        → Holds handle.new.held (λ s. (s ≡ at_first s.house) × Resumes record.now s.house) }
    ensures none { handle.old.held ≡ None → result ≡ 18 → (h : House) → ¬ Resumes record.now h }
    ensures failed { handle.old.held ≡ None → result ≢ 0
        → ((result ≡ 6) ⊎ (result ≡ 18)) × (handle.new.held ≡ None) }
{
    if holds(alloc, handle) {
        return HELD;
    }
    match Session::open(alloc, record) {
        Ok(session) => hold_first(alloc, handle, session),
        Err(fault) => code_of(fault),
    }
}

/// Does again what the next record of the last segment says.
#[unsafe(no_mangle)]
pub extern "C" fn cds_house_redo(alloc: Global, handle: &mut HouseHandle, record: &[u8]) -> u32
    ensures empty { handle.old.held ≡ None → (result ≡ 16) × (handle.new.held ≡ None) }
    ensures ok { (s : Session') → handle.old.held ≡ Some s → result ≡ 0
        → Holds handle.new.held (λ t. (why_not_first s.stage ≡ None)
        × Redoes s.house record.now t.house × (t ≡ record s { house = t.house })) }
    ensures refused { (s : Session') → handle.old.held ≡ Some s → IfSome (why_not_first s.stage)
        (λ f. (result ≡ codes.code_of f) × (handle.new.held ≡ Some s)) }
    ensures differs { (s : Session') → handle.old.held ≡ Some s → why_not_first s.stage ≡ None
        → result ≡ 18 → Differs s.house record.now }
    ensures spent { (s : Session') → handle.old.held ≡ Some s → why_not_first s.stage ≡ None
        → result ≢ 0 → ((result ≡ 6) ⊎ (result ≡ 18)) × Holds handle.new.held IsSpent }
{
    let Some(mut session) = handle.take(alloc) else {
        return EMPTY;
    };
    match session.redo(alloc, record) {
        Ok(()) => {
            handle.hold(session);
            OK
        }
        Err(fault) => {
            handle.hold(session);
            code_of(fault)
        }
    }
}

/// Ends the life of the house before, and starts. The record of that waits to be kept.
#[unsafe(no_mangle)]
pub extern "C" fn cds_house_start(alloc: Global, handle: &mut HouseHandle) -> u32
    ensures empty { handle.old.held ≡ None → (result ≡ 16) × (handle.new.held ≡ None) }
    ensures ok { (s : Session') → handle.old.held ≡ Some s → result ≡ 0
        → Holds handle.new.held (λ t. (why_not_first s.stage ≡ None) × IsStarted s.house t) }
    ensures lawful { (s : Session') → handle.old.held ≡ Some s → MayEnd s.house.home
        → result ≢ 18 }
    ensures spent { (s : Session') → handle.old.held ≡ Some s → why_not_first s.stage ≡ None
        → result ≢ 0 → ((result ≡ 6) ⊎ (result ≡ 18)) × Holds handle.new.held IsSpent }
    ensures refused { (s : Session') → handle.old.held ≡ Some s → IfSome (why_not_first s.stage)
        (λ f. (result ≡ codes.code_of f) × (handle.new.held ≡ Some s)) }
{
    let Some(mut session) = handle.take(alloc) else {
        return EMPTY;
    };
    match session.start(alloc) {
        Ok(()) => {
            handle.hold(session);
            OK
        }
        Err(fault) => {
            handle.hold(session);
            code_of(fault)
        }
    }
}

/// Answers a line, which is given without its end. If that was a turn, its record waits to be kept.
#[unsafe(no_mangle)]
pub extern "C" fn cds_house_line(alloc: Global, handle: &mut HouseHandle, line: &[u8]) -> u32
    ensures empty { handle.old.held ≡ None → (result ≡ 16) × (handle.new.held ≡ None) }
    ensures ok { (s : Session') → handle.old.held ≡ Some s → result ≡ 0
        → Holds handle.new.held (IsSaid s line.now) }
    ensures refused { (s : Session') → handle.old.held ≡ Some s
        → IfSome (why_no_line s.stage s.body s.number line.now)
        (λ f. (result ≡ codes.code_of f) × (handle.new.held ≡ Some s)) }
    ensures spent { (s : Session') → handle.old.held ≡ Some s
        → why_no_line s.stage s.body s.number line.now ≡ None
        → result ≢ 0 → (result ≡ 6) × Holds handle.new.held IsSpent }
{
    let Some(mut session) = handle.take(alloc) else {
        return EMPTY;
    };
    match session.line(alloc, line) {
        Ok(()) => {
            handle.hold(session);
            OK
        }
        Err(fault) => {
            handle.hold(session);
            code_of(fault)
        }
    }
}

/// Begins the next segment: its first record waits to be kept.
#[unsafe(no_mangle)]
pub extern "C" fn cds_house_next_segment(alloc: Global, handle: &mut HouseHandle) -> u32
    ensures empty { handle.old.held ≡ None → (result ≡ 16) × (handle.new.held ≡ None) }
    ensures ok { (s : Session') → handle.old.held ≡ Some s → result ≡ 0
        → Holds handle.new.held (λ t. (why_not s.stage s.body ≡ None)
        × (is_some t.body ≡ true) × (t ≡ record s { text = []; body = t.body })
        × IfSome t.body (IsSegmentRecord s.house)) }
    ensures refused { (s : Session') → handle.old.held ≡ Some s → IfSome (why_not s.stage s.body)
        (λ f. (result ≡ codes.code_of f) × (handle.new.held ≡ Some s)) }
    ensures memory { (s : Session') → handle.old.held ≡ Some s → why_not s.stage s.body ≡ None
        → result ≢ 0 → (result ≡ 6) × (handle.new.held ≡ Some s) }
{
    let Some(mut session) = handle.take(alloc) else {
        return EMPTY;
    };
    match session.next_segment(alloc) {
        Ok(()) => {
            handle.hold(session);
            OK
        }
        Err(fault) => {
            handle.hold(session);
            code_of(fault)
        }
    }
}

// Puts octets into a room, as much of them as fits.
fn say(octets: &[u8], out: &mut [u8], len: &mut usize) -> u32
    ensures put { out.new ≡ put_into out.old octets.now }
    ensures counted { len.new ≡ length octets.now }
    ensures code { result ≡ codes.room_code (length out.old) octets.now }
{
    *len = octets.len();
    put(octets, out);
    if out.len() < octets.len() {
        NO_ROOM
    } else {
        OK
    }
}

/// Puts the record that waits into `out`, as much of it as fits. `len` is how long all of it is.
#[unsafe(no_mangle)]
pub extern "C" fn cds_house_record(
    alloc: Global,
    handle: &mut HouseHandle,
    out: &mut [u8],
    len: &mut usize,
) -> u32
    ensures same { handle.new.held ≡ handle.old.held }
    ensures empty { handle.old.held ≡ None
        → (result ≡ 16) × (out.new ≡ out.old) × (len.new ≡ 0) }
    ensures none { (s : Session') → handle.old.held ≡ Some s → s.body ≡ None
        → (result ≡ 24) × (out.new ≡ out.old) × (len.new ≡ 0) }
    ensures some { (s : Session') → handle.old.held ≡ Some s → IfSome s.body
        (λ body. (out.new ≡ put_into out.old body) × (len.new ≡ length body)
        × (result ≡ codes.room_code (length out.old) body)) }
{
    *len = 0;
    let Some(session) = handle.take(alloc) else {
        return EMPTY;
    };
    let code = match session.record() {
        Some(octets) => say(octets, out, len),
        None => NONE_WAITS,
    };
    handle.hold(session);
    code
}

/// The record that waits is durable.
#[unsafe(no_mangle)]
pub extern "C" fn cds_house_kept(alloc: Global, handle: &mut HouseHandle) -> u32
    ensures empty { handle.old.held ≡ None → (result ≡ 16) × (handle.new.held ≡ None) }
    ensures ok { (s : Session') → handle.old.held ≡ Some s → result ≡ 0
        → (is_some s.body ≡ true) × (handle.new.held ≡ Some (record s { body = None })) }
    ensures none { (s : Session') → handle.old.held ≡ Some s → result ≢ 0
        → (result ≡ 24) × (s.body ≡ None) × (handle.new.held ≡ Some s) }
{
    let Some(mut session) = handle.take(alloc) else {
        return EMPTY;
    };
    match session.kept() {
        Ok(()) => {
            handle.hold(session);
            OK
        }
        Err(fault) => {
            handle.hold(session);
            code_of(fault)
        }
    }
}

/// Puts what the last line came to, or the start, into `out`, as much of it as fits: nothing while
/// its record waits to be kept. `len` is how long all of it is.
#[unsafe(no_mangle)]
pub extern "C" fn cds_house_text(
    alloc: Global,
    handle: &mut HouseHandle,
    out: &mut [u8],
    len: &mut usize,
) -> u32
    ensures empty { handle.old.held ≡ None
        → (result ≡ 16) × (out.new ≡ out.old) × (len.new ≡ 0) }
    ensures same { handle.new.held ≡ handle.old.held }
    ensures refused { (s : Session') → handle.old.held ≡ Some s → IfSome (why_not s.stage s.body)
        (λ f. (result ≡ codes.code_of f) × (out.new ≡ out.old) × (len.new ≡ 0)) }
    ensures said { (s : Session') → handle.old.held ≡ Some s → why_not s.stage s.body ≡ None
        → (out.new ≡ put_into out.old s.text) × (len.new ≡ length s.text)
        × (result ≡ codes.room_code (length out.old) s.text) }
{
    *len = 0;
    let Some(session) = handle.take(alloc) else {
        return EMPTY;
    };
    let code = match session.text() {
        Ok(octets) => say(octets, out, len),
        Err(fault) => code_of(fault),
    };
    handle.hold(session);
    code
}

/// Lets the session go: the handle holds nothing then.
#[unsafe(no_mangle)]
pub extern "C" fn cds_house_free(alloc: Global, handle: &mut HouseHandle) -> u32
    ensures freed { handle.new.held ≡ None }
    ensures empty { handle.old.held ≡ None → result ≡ 16 }
    ensures ok { (s : Session') → handle.old.held ≡ Some s → result ≡ 0 }
{
    match handle.take(alloc) {
        Some(session) => {
            drop(session);
            OK
        }
        None => EMPTY,
    }
}
