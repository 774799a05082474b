//! An opener in memory: one image or two, of which it gives each once, and the names that it was asked for.
ghost use Rattle.std.specs.Prelude.{◌≡◌, true, Some, None, [], if◌then◌else◌};
ghost use Rattle.std.specs.Option.{option_copied};
ghost use Rattle.ram_outside.specs.Opener.{OpenRule, CloseRule};
ghost use Rattle.ram_outside.specs.declared.opener.Access.TheVariants.{ReadWrite, ReadOnly};
ghost use Rattle.ram_outside.specs.Calls.{no_calls};
ghost use Rattle.ram_outside.specs.Memory.{OpensExactly, after_close, and_asked_now, unfailed, view_of};

use crate::memory::calls::Calls;
use crate::memory::image::MemImage;
use crate::opener::{Access, Opened, Opener};
use std::marker::Model;

/// An image that was asked for: by which name, and for what.
#[derive(Debug, Drop)]
struct Asked {
    name: Vec<u8>,
    access: Access,
}

/// An opener that has one image or two, in memory, whatever the names. It keeps the names that it was asked for.
#[derive(Debug, Drop)]
pub struct MemOpener {
    image: Option<MemImage>,
    second: Option<MemImage>,
    returned: Option<MemImage>,
    returned_before: Option<MemImage>,
    asked: Vec<Asked>,
    calls: Calls,
}

impl Model for MemOpener {
    ghost use Rattle.std.specs.Prelude.{map};
    ghost use Rattle.std.specs.Option.{option_map};
    ghost use Rattle.ram_outside.specs.Opener.{asking};
    ghost use Rattle.ram_outside.specs.Memory.{OpenerState, unfailed};

    ghost Value = { OpenerState };

    ghost view = { λ o. record {
      next = option_map unfailed o.image;
      after_next = option_map unfailed o.second;
      returned = o.returned;
      returned_before = o.returned_before;
      asked = map (λ one. asking one.access one.name.items) o.asked.items;
      calls = o.calls;
    } };
}

impl MemOpener {
    /// Opens this image once, with no failure of it counted. `failing` has the numbers, from 1 on, of the calls that open it
    /// and fail.
    pub fn new(image: MemImage, failing: Vec<u64>) -> MemOpener
        ensures { result ≡ record {
          next = Some (unfailed image);
          after_next = None;
          returned = None;
          returned_before = None;
          asked = [];
          calls = no_calls failing.items;
        } }
    {
        MemOpener {
            image: Some(image),
            second: None,
            returned: None,
            returned_before: None,
            asked: Vec::new(*failing.allocator()),
            calls: Calls::new(failing),
        }
    }

    /// Opens these images once each, the first one first, with no failure of them counted. `failing` has the numbers, from 1 on,
    /// of the calls that open one and fail.
    pub fn pair(first: MemImage, second: MemImage, failing: Vec<u64>) -> MemOpener
        ensures { result ≡ record {
          next = Some (unfailed first);
          after_next = Some (unfailed second);
          returned = None;
          returned_before = None;
          asked = [];
          calls = no_calls failing.items;
        } }
    {
        MemOpener {
            image: Some(first),
            second: Some(second),
            returned: None,
            returned_before: None,
            asked: Vec::new(*failing.allocator()),
            calls: Calls::new(failing),
        }
    }

    /// The image that was handed back last.
    ///
    /// # Answers
    ///
    /// - `Some`, `None`: the image that was handed back last, if one was. (clause)
    pub fn returned(&self) -> Option<&MemImage>
        ensures { option_copied result ≡ self.now.returned }
    {
        self.returned.as_ref()
    }

    /// The image that was handed back before the last one.
    ///
    /// # Answers
    ///
    /// - `Some`, `None`: the image that was handed back before the last one, if one was. (clause)
    pub fn returned_before(&self) -> Option<&MemImage>
        ensures { option_copied result ≡ self.now.returned_before }
    {
        self.returned_before.as_ref()
    }

    /// Keeps what was asked for. Where memory is refused, nothing is kept.
    fn keep_name(&mut self, name: &str, access: Access) -> bool
        ensures { self.new ≡ (if result then and_asked_now access name.now self.old else self.old) }
    {
        match Vec::from_slice(*self.asked.allocator(), name.as_bytes()) {
            Ok(name) => self.asked.push(Asked { name, access }).is_ok(),
            Err(_) => false,
        }
    }

    /// Gives the next image, where it still has one and the call is none that fails.
    fn give(&mut self, name: &str, access: Access) -> Opened<MemImage>
        ensures rule { OpenRule (λ i. i.calls.faults) access name.now (view_of self.old) (view_of self.new) result }
        ensures exactly { OpensExactly access name.now self.old self.new result }
    {
        let fails = self.calls.next_fails();
        if !self.keep_name(name, access) {
            if !fails {
                self.calls.add_faults(1);
            }
            return Opened::Failed;
        }
        if fails {
            return Opened::Failed;
        }
        match self.image.take() {
            Some(mut image) => {
                self.image = self.second.take();
                image.forget_faults();
                Opened::Image(image)
            }
            None => {
                self.calls.add_faults(1);
                Opened::Failed
            }
        }
    }
}

impl Opener for MemOpener {
    type Image = MemImage;

    ghost returned_known = { true };

    ghost next = { λ o. o.next };

    ghost after_next = { λ o. o.after_next };

    ghost returned = { λ o. o.returned };

    ghost returned_before = { λ o. o.returned_before };

    ghost asked = { λ o. Some o.asked };

    ghost faults = { λ o. o.calls.faults };

    fn open(&mut self, name: &str) -> Opened<MemImage>
        ensures rule { OpenRule (λ i. i.calls.faults) ReadWrite name.now (view_of self.old) (view_of self.new) result }
        ensures exactly { OpensExactly ReadWrite name.now self.old self.new result }
    {
        self.give(name, Access::ReadWrite)
    }

    /// It does what `open` does, but for what it keeps.
    fn open_to_read(&mut self, name: &str) -> Opened<MemImage>
        ensures rule { OpenRule (λ i. i.calls.faults) ReadOnly name.now (view_of self.old) (view_of self.new) result }
        ensures exactly { OpensExactly ReadOnly name.now self.old self.new result }
    {
        self.give(name, Access::ReadOnly)
    }

    fn close(&mut self, image: MemImage)
        ensures rule { CloseRule true (λ i. i.calls.faults) image (view_of self.old) (view_of self.new) }
        ensures exactly { self.new ≡ after_close image self.old }
    {
        self.calls.add_faults(image.faults());
        self.returned_before = self.returned.take();
        self.returned = Some(image);
    }
}
