//! Why a line can't stand in its place.

ghost use Rattle.std.specs.Prelude.{◌≡◌, ◌≤◌, Option};
ghost use Rattle.script_read.specs.Faults.{InFront, Within, session_fault, heading_fault, form_fault, fault_of};

use crate::Why;
use crate::class::{begins_with_colon, is_schedule, is_session, is_skipped, is_text, number_part};
use crate::decimal::{MOST_SESSIONS, small_number};

// Why a line with a number can't begin the next session, behind so many.
fn session_fault(sessions: usize, line: &[u8]) -> Option<Why>
    requires { sessions ≤ 64 }
    ensures { result ≡ session_fault sessions line.now }
{
    match small_number(number_part(line)) {
        Some(number) if number == sessions + 1 && sessions < MOST_SESSIONS => None,
        _ => Some(Why::Session),
    }
}

// Why a line that begins with a colon can't stand behind so many sessions.
fn heading_fault(sessions: usize, line: &[u8]) -> Option<Why>
    requires { sessions ≤ 64 }
    ensures { result ≡ heading_fault sessions line.now }
{
    if is_session(line) {
        session_fault(sessions, line)
    } else if is_schedule(line) {
        None
    } else {
        Some(Why::Directive)
    }
}

// Why a line of text can't stand before the first session.
fn front_form_fault(line: &[u8]) -> Option<Why>
    ensures { result ≡ form_fault InFront line.now }
{
    if is_skipped(line) {
        None
    } else if is_session(line) {
        session_fault(0, line)
    } else {
        Some(Why::Before)
    }
}

// Why a line can't stand before the first session.
pub(crate) fn front_fault(line: &[u8]) -> Option<Why>
    ensures { result ≡ fault_of InFront line.now }
{
    if is_text(line) {
        front_form_fault(line)
    } else {
        Some(Why::Byte)
    }
}

fn inner_form_fault(sessions: usize, line: &[u8]) -> Option<Why>
    requires { sessions ≤ 64 }
    ensures { result ≡ form_fault (Within sessions) line.now }
{
    if begins_with_colon(line) {
        heading_fault(sessions, line)
    } else {
        None
    }
}

// Why a line can't stand in the last of so many sessions, or behind it.
pub(crate) fn inner_fault(sessions: usize, line: &[u8]) -> Option<Why>
    requires { sessions ≤ 64 }
    ensures { result ≡ fault_of (Within sessions) line.now }
{
    if is_text(line) {
        inner_form_fault(sessions, line)
    } else {
        Some(Why::Byte)
    }
}
