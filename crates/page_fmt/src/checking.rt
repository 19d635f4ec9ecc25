//! Whether bytes are a page, and where their first fault stands.

ghost use Rattle.std.specs.Prelude.{ℕ, List, IfSome, IfNone, OnSome, ◌≡◌, ◌<◌, ◌≤◌, ◌+◌, ◌-◌, ◌*◌, length, Some, OnOk, OnErr, IfErr};
ghost use Rattle.page_fmt.specs.Content.{offsets_at, IsPage};
ghost use Rattle.page_fmt.specs.Faults.{first_nonzero, is_wrong, first_wrong, inner_fault, fault_with, fault_of};

use crate::numbers::number;
use page_base::{Image, PAGE};

/// These bytes are no page; `at` is the place of the first fault.
#[derive(Clone, Copy, Debug, PartialEq, Eq)]
pub struct BadPage {
    pub at: u32,
}

// The first byte between two places that isn't zero.
fn nonzero(page: &[u8], from: usize, to: usize) -> Option<usize>
    requires order { from ≤ to }
    requires within { to ≤ length page.now }
    ensures value { result ≡ first_nonzero page.now from (to - from) }
    ensures range { IfSome result (λ at. at < to) }
{
    for i in from..to {
        if page[i] != 0 {
            return Some(i);
        }
    }
    None
}

// An offset that doesn't follow the one before, or isn't among the rows.
fn is_wrong(end: usize, before: usize, start: usize, later: usize) -> bool
    ensures { (os : List ℕ) → length os ≡ later → result ≡ is_wrong end before start os }
{
    if start == 0 {
        return later == 0;
    }
    start >= end
        || (if before == 0 {
            start != 96
        } else {
            start <= before
        })
}

// The place of the first offset that is wrong.
fn wrong_offset(page: &[u8], count: u16, end: usize) -> Option<usize>
    requires size { length page.now ≡ 8192 }
    requires few { count < 4096 }
    ensures value { result ≡ first_wrong end 0 8190 (offsets_at page.now 8190 count) }
    ensures range { IfSome result (λ at. at < 8192) }
{
    let mut before = 0;
    for i in 0..count {
        let at = 8190 - 2 * i as usize;
        let start = number(page, at) as usize;
        if is_wrong(end, before, start, (count - i - 1) as usize) {
            return Some(at);
        }
        before = if start == 0 { before } else { start };
    }
    None
}

// The place of the first fault behind the two numbers.
fn inner_fault(page: &[u8], count: u16, bytes: u16) -> Option<usize>
    requires size { length page.now ≡ 8192 }
    requires few { 96 + bytes + 2 * count ≤ 8192 }
    ensures value { result ≡ inner_fault page.now count bytes }
    ensures range { IfSome result (λ at. at < 8192) }
{
    let end = 96 + bytes as usize;
    match nonzero(page, 4, 96) {
        Some(at) => Some(at),
        None => match nonzero(page, end, PAGE - 2 * count as usize) {
            Some(at) => Some(at),
            None => wrong_offset(page, count, end),
        },
    }
}

// The place of the first fault of a page with these two numbers.
fn fault(page: &[u8], count: u16, bytes: u16) -> Option<usize>
    requires { length page.now ≡ 8192 }
    ensures value { result ≡ fault_with page.now count bytes }
    ensures range { IfSome result (λ at. at < 8192) }
{
    if 96 + bytes as usize + 2 * count as usize > PAGE {
        return Some(0);
    }
    if bytes > 0 && count == 0 {
        return Some(2);
    }
    inner_fault(page, count, bytes)
}

// The place of the first fault, if there is one.
fn first_fault(page: &[u8]) -> Option<usize>
    requires { length page.now ≡ 8192 }
    ensures value { result ≡ fault_of page.now }
    ensures page { IfNone result (IsPage page.now) }
    ensures none { OnSome result (¬ IsPage page.now) }
    ensures range { IfSome result (λ at. at < 8192) }
{
    fault(page, number(page, 0), number(page, 2))
}

/// Whether the bytes are a page. If not, where the first fault stands.
pub fn check(image: &Image) -> Result<(), BadPage>
    ensures ok { OnOk result (IsPage image.now) }
    ensures bad { OnErr result (¬ IsPage image.now) }
    ensures place { IfErr result (λ e. fault_of image.now ≡ Some e.at) }
{
    match first_fault(image.bytes()) {
        None => Ok(()),
        Some(at) => Err(BadPage { at: at as u32 }),
    }
}
