//! The bytes of the mode pages, and of the header before them.
ghost use Rattle.std.specs.Prelude.{◌≡◌, ◌+◌, ◌*◌, ◌<◌, ◌≤◌, ◌↔◌, length, IsTrue};
ghost use Rattle.model_modes.specs.Pages.{code, current_page, changeable_page, capabilities_by, asks_for_capabilities, is_page_code, page_by, page_with};
ghost use Rattle.model_modes.specs.ParameterLists.{HasCurrentPages, IsCurrentPage, is_no_list_length, page_at, is_caching, caches_after};

use model_modes::Page;

/// How many bytes a page has that a list may set.
pub const PAGE_BYTES: usize = 12;

/// How many bytes the page of capabilities has.
pub const CAPABILITIES_BYTES: usize = 32;

/// How many bytes the header before the pages has in a list.
pub const HEADER_BYTES: usize = 8;

/// The code that asks for all pages.
const ALL_PAGES: u8 = 0x3f;

/// The code of the page of capabilities.
pub const CAPABILITIES: u8 = 0x2a;

/// Bit 2 of byte 2 of the caching page: the write cache is on.
const WCE: u8 = 0x04;

/// A page with the values in force, where the write cache is on or off. Its first byte is its code, and the second the number
/// of those that follow.
fn current_page(caches: bool, page: Page) -> [u8; PAGE_BYTES]
    ensures { result ≡ current_page caches page }
{
    match (page, caches) {
        (Page::ErrorRecovery, _) => [0x01, 0x0a, 0x80, 0, 0, 0, 0, 0, 0, 0, 0, 0],
        (Page::Caching, true) => [0x08, 0x0a, WCE, 0, 0, 0, 0, 0, 0, 0, 0, 0],
        (Page::Caching, false) => [0x08, 0x0a, 0, 0, 0, 0, 0, 0, 0, 0, 0, 0],
    }
}

/// A page with ones in place of the bits that may be changed.
fn changeable_page(page: Page) -> [u8; PAGE_BYTES]
    ensures { result ≡ changeable_page page }
{
    match page {
        Page::ErrorRecovery => [0x01, 0x0a, 0, 0, 0, 0, 0, 0, 0, 0, 0, 0],
        Page::Caching => [0x08, 0x0a, WCE, 0, 0, 0, 0, 0, 0, 0, 0, 0],
    }
}

/// The code of a page.
fn code_of(page: Page) -> u8
    ensures { result ≡ code page }
{
    current_page(false, page)[0]
}

/// The page with this code, of those that a list may set.
pub fn page_with(wanted: u8) -> Option<Page>
    ensures { result ≡ page_with wanted }
{
    if wanted == code_of(Page::ErrorRecovery) {
        return Some(Page::ErrorRecovery);
    }
    if wanted == code_of(Page::Caching) {
        return Some(Page::Caching);
    }
    None
}

/// Whether this code asks for a page.
///
/// # Clauses
///
/// - exactly whether a code asks for a page.
///
/// # Answers
///
/// - `true`, `false`: `true` exactly for the code of a page, or that of all. (`is_page_code`)
pub fn is_page_code(wanted: u8) -> bool
    ensures { result ≡ is_page_code wanted }
{
    page_with(wanted).is_some() || asks_for_capabilities(wanted)
}

/// Whether this code asks for the page of capabilities.
fn asks_for_capabilities(wanted: u8) -> bool
    ensures { result ≡ asks_for_capabilities wanted }
{
    wanted == CAPABILITIES || wanted == ALL_PAGES
}

/// A page as this page control asks for it, from 0 to 2, where the write cache is on or off: 0 asks for the values in force,
/// 1 for what may be changed, 2 for the default values.
pub fn page_by(control: u8, caches: bool, page: Page) -> [u8; PAGE_BYTES]
    ensures { result ≡ page_by control caches page }
{
    if control == 1 {
        changeable_page(page)
    } else {
        current_page(control == 0 && caches, page)
    }
}

/// The page of capabilities as this page control asks for it, from 0 to 2, with removal prevented or not.
pub fn capabilities_by(control: u8, locked: bool) -> [u8; CAPABILITIES_BYTES]
    ensures { result ≡ capabilities_by control locked }
{
    let [reads, writes, loads, buffers] = match (control, locked) {
        (1, _) => [0, 0, 0, 0],
        (0, true) => [0x28, 0x20, 0x2b, 0x01],
        _ => [0x28, 0x20, 0x29, 0x01],
    };
    [
        0x2a, 0x1e, reads, writes, 0, 0, loads, 0, 0, 0, 0, 0, buffers, 0, 0, 0, 0, 0, 0, 0, 0, 0,
        0, 0, 0, 0, 0, 0, 0, 0, 0, 0,
    ]
}

/// Whether n bytes are no list of pages: a list has none, or a header and up to two pages.
///
/// # Clauses
///
/// - exactly whether that number of bytes is no list: a list has none, 8, 20 or 32.
///
/// # Answers
///
/// - `true`, `false`: `false` exactly for 0, 8, 20 and 32 bytes. (`is_no_list_length`)
pub fn is_no_list_length(bytes: usize) -> bool
    ensures { result ≡ is_no_list_length bytes }
{
    bytes != 0
        && bytes != HEADER_BYTES
        && bytes != HEADER_BYTES + PAGE_BYTES
        && bytes != HEADER_BYTES + 2 * PAGE_BYTES
}

/// Whether these bytes are a header with no block descriptors, and then whole pages with values that they may have.
pub fn has_current_pages(list: &[u8]) -> bool
    ensures { IsTrue result ↔ HasCurrentPages list.now }
{
    let [_, _, _, _, _, _, 0, 0, pages @ ..] = list else {
        return false;
    };
    if pages.len() % PAGE_BYTES != 0 {
        return false;
    }
    for k in 0..pages.len() / PAGE_BYTES {
        if !is_current(page_at(list, k)) {
            return false;
        }
    }
    true
}

/// The page with this number, from 0 on, after the header.
fn page_at(list: &[u8], k: usize) -> &[u8]
    requires { 8 + 12 * k + 12 ≤ length list.now }
    ensures { result.now ≡ page_at list.now k }
{
    let at = HEADER_BYTES + PAGE_BYTES * k;
    &list[at..at + PAGE_BYTES]
}

/// Whether the write cache is on after a list that was taken, where it was on or off before: as its last caching page says.
pub fn caches_after(list: &[u8], was: bool) -> bool
    ensures { result ≡ caches_after list.now was }
{
    let mut caches = was;
    for k in 0..list.len().saturating_sub(HEADER_BYTES) / PAGE_BYTES {
        let page = page_at(list, k);
        if is_caching(page) {
            caches = page[2] == WCE;
        }
    }
    caches
}

fn is_caching(page: &[u8]) -> bool
    requires { length page.now ≡ 12 }
    ensures { result ≡ is_caching page.now }
{
    page[0] % 128 == code_of(Page::Caching)
}

/// Whether these bytes are a page with values that it may have; bit 7 of its first byte is not looked at.
fn is_current(page: &[u8]) -> bool
    ensures { IsTrue result ↔ IsCurrentPage page.now }
{
    let [first, values @ ..] = page else {
        return false;
    };
    match page_with(*first % 128) {
        Some(page) => {
            values == &current_page(false, page)[1..] || values == &current_page(true, page)[1..]
        }
        None => false,
    }
}
