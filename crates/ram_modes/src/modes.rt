//! The mode pages as a host sees them.
ghost use Rattle.std.specs.Prelude.{◌≡◌, ◌+◌, ◌≤◌, ◌<◌, ◌++◌, length, take, vec_len, vec_capacity, IsTrue};
ghost use Rattle.model_modes.specs.Pages.{is_page_code, mode_header, mode_data};
ghost use Rattle.ram_modes.specs.Selects.{Selects};

use crate::pages::{
    CAPABILITIES, caches_after, capabilities_by, has_current_pages, page_by, page_with,
};
use model_modes::Page;
use ram_sense::Sense;
use ram_sense::codes::INVALID_FIELD_IN_PARAMETERS;

/// The mode pages of the drive: the values of them that change.
#[derive(Clone, Copy, Debug, PartialEq, Eq)]
pub struct Modes {
    /// Whether writes are cached (WCE), which a list may set.
    pub caches: bool,
    /// Whether removal is prevented.
    pub locked: bool,
}

impl Modes {
    /// The pages of a drive whose write cache is on or off, with removal prevented or not.
    ///
    /// # Clauses
    ///
    /// - pages of a drive whose write cache is on or off, with removal prevented or not, as is given.
    pub fn new(caches: bool, locked: bool) -> Modes
        ensures caches { result.caches ≡ caches }
        ensures locked { result.locked ≡ locked }
    {
        Modes { caches, locked }
    }

    /// Appends the data of MODE SENSE(6), whose header is short, or of MODE SENSE(10): of the page with this code, or of all of
    /// them, with the values for which this page control asks. (After INCITS SPC.)
    ///
    /// # Clauses
    ///
    /// - `appended`: behind what was there stands the whole reply, `mode_data`: a header that tells how many bytes follow, of four
    ///   bytes for MODE SENSE(6) and of eight for MODE SENSE(10), then page 01h, page 08h, page 2Ah, or all in this order for 3Fh;
    ///   with page control 0 the values in force, with 1 the bits that may be changed, with 2 the default values, in which the
    ///   write cache is off and removal is allowed.
    /// - `room`: the room of the list is no smaller.
    pub fn sense(&self, short: bool, control: u8, page: u8, out: &mut Vec<u8>)
        requires control { control < 3 }
        requires page { IsTrue (is_page_code page) }
        requires room { vec_len out.old + 64 ≤ vec_capacity out.old }
        ensures appended { out.new.items
            ≡ out.old.items ++ mode_data short control self.now.caches self.now.locked page }
        ensures room { vec_capacity out.old ≤ vec_capacity out.new }
    {
        let capabilities = capabilities_by(control, self.locked);
        match page_with(page) {
            Some(page) => put_page(out, short, &page_by(control, self.caches, page)),
            None if page == CAPABILITIES => put_page(out, short, &capabilities),
            None => {
                put_header(out, short, 56);
                put(out, &page_by(control, self.caches, Page::ErrorRecovery));
                put(out, &page_by(control, self.caches, Page::Caching));
                put(out, &capabilities);
            }
        }
    }

    /// The same, cut to the allocation length, which is in bytes.
    ///
    /// # Clauses
    ///
    /// - `appended`: the same, cut to the allocation length.
    pub fn sense_within(
        &self,
        short: bool,
        control: u8,
        page: u8,
        allocation: u32,
        out: &mut Vec<u8>,
    )
        requires control { control < 3 }
        requires page { IsTrue (is_page_code page) }
        requires room { vec_len out.old + 64 ≤ vec_capacity out.old }
        ensures appended { out.new.items
            ≡ out.old.items ++ take allocation (mode_data short control self.now.caches self.now.locked page) }
        ensures room { vec_capacity out.old ≤ vec_capacity out.new }
    {
        let start = out.len();
        self.sense(short, control, page, out);
        out.truncate(start.saturating_add(allocation as usize));
    }

    /// Takes the parameter list of MODE SELECT(10). A list that is empty, or names no other value than one in force but that of
    /// WCE, is taken, and its last caching page sets WCE; every other one is refused with 5/26/00, and changes nothing. (After
    /// INCITS SPC.)
    ///
    /// # Clauses
    ///
    /// - `cases`: a list is taken exactly where it is empty, or is a header of eight bytes whose last two are zero and then whole
    ///   pages of 12 bytes, each with its default values, bit 7 of its first byte and the bit of the write cache aside; every
    ///   other list is 5/26/00.
    /// - `caches`: the write cache is as the last caching page of a list that is taken says, and as it was without one, or where
    ///   the list is not taken.
    ///
    /// # Answers
    ///
    /// - `Ok`: the list is empty, or its pages have their default values but for the write cache; that is as the last caching
    ///   page says, and as before without one. (`Selects`)
    /// - `Err`: every other list, as 5/26/00; nothing changed. (`Selects`)
    pub fn select(&mut self, payload: &[u8]) -> Result<(), Sense>
        ensures cases { Selects payload.now self.old.caches self.new.caches result }
        ensures locked { self.new.locked ≡ self.old.locked }
    {
        if payload.is_empty() || has_current_pages(payload) {
            self.caches = caches_after(payload, self.caches);
            Ok(())
        } else {
            Err(INVALID_FIELD_IN_PARAMETERS)
        }
    }
}

// Appends the header and one page.
fn put_page(out: &mut Vec<u8>, short: bool, page: &[u8])
    requires length { length page.now < 56 }
    requires room { vec_len out.old + length page.now + 8 ≤ vec_capacity out.old }
    ensures appended { out.new.items ≡ out.old.items ++ mode_header short (length page.now) ++ page.now }
    ensures room { vec_capacity out.old ≤ vec_capacity out.new }
{
    put_header(out, short, page.len() as u8);
    put(out, page);
}

// Appends the header before n bytes of pages.
fn put_header(out: &mut Vec<u8>, short: bool, pages: u8)
    requires length { pages < 57 }
    requires room { vec_len out.old + 8 ≤ vec_capacity out.old }
    ensures appended { out.new.items ≡ out.old.items ++ mode_header short pages }
    ensures length { vec_len out.new ≤ vec_len out.old + 8 }
    ensures room { vec_capacity out.old ≤ vec_capacity out.new }
{
    if short {
        put(out, &[3 + pages, 0, 0, 0]);
    } else {
        put(out, &[0, 6 + pages, 0, 0, 0, 0, 0, 0]);
    }
}

// Appends these bytes.
fn put(out: &mut Vec<u8>, bytes: &[u8])
    requires room { vec_len out.old + length bytes.now ≤ vec_capacity out.old }
    ensures appended { out.new.items ≡ out.old.items ++ bytes.now }
    ensures length { vec_len out.new ≡ vec_len out.old + length bytes.now }
    ensures room { vec_capacity out.old ≤ vec_capacity out.new }
{
    match out.extend_from_slice(bytes) {
        Ok(()) => {}
        Err(_) => unreachable!(),
    }
}
