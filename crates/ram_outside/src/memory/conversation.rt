//! A conversation in memory, that keeps how it stood whenever more was asked for. It touches its own bytes alone.
ghost use Rattle.std.specs.Prelude.{◌≡◌, ◌<◌, [], Some, IfOk, length};
ghost use Rattle.std.specs.Borrow.{Lends, sem};
ghost use Rattle.ram_outside.specs.Conversation.{AsksNow, asked_with};

use crate::conversation::Conversation;
use crate::memory::sink::MemSink;
use crate::memory::source::MemSource;
use crate::source::{Source, Take};
use std::alloc::{AllocError, Global};

/// How it stood when more was asked for.
#[derive(Debug, Drop)]
pub struct MemAsked {
    /// The bytes that were left to come.
    pub left: Vec<u8>,
    /// The bytes that were written.
    pub written: Vec<u8>,
}

/// A conversation in memory.
#[derive(Drop)]
pub struct MemConversation {
    alloc: Global,
    script: MemSource,
    report: MemSink,
    asked: Vec<MemAsked>,
    forgot: bool,
}

impl MemConversation {
    ghost use Rattle.ram_outside.specs.MemConversation.{asks_known, asks_kept, NotesNow};

    /// The conversation of this source and this sink, in which nothing was asked for yet.
    pub fn new(alloc: Global, script: MemSource, report: MemSink) -> MemConversation
        ensures script { result.script ≡ script }
        ensures report { result.report ≡ report }
        ensures asked { asks_known result ≡ Some [] }
    {
        MemConversation {
            alloc,
            script,
            report,
            asked: Vec::new(alloc),
            forgot: false,
        }
    }

    /// The sink.
    pub fn report(&self) -> &MemSink
        ensures { result.now ≡ self.now.report }
    {
        &self.report
    }

    /// How it stood whenever more was asked for, the oldest first; nothing where memory for it was refused once.
    pub fn asked(&self) -> &[MemAsked]
        ensures { result.now ≡ asks_kept self.now }
    {
        match self.forgot {
            true => &[],
            false => self.asked.as_slice(),
        }
    }

    // Keeps how it stands; where memory is refused, it forgets how it stood before too.
    fn note(&mut self)
        ensures { NotesNow self.old self.new }
    {
        match copy_now(self.alloc, self.script.left(), self.report.bytes()) {
            Ok(now) => {
                if self.asked.push(now).is_err() {
                    self.forgot = true;
                }
            }
            Err(_) => self.forgot = true,
        }
    }
}

/// Copies of these.
fn copy_now(alloc: Global, left: &[u8], written: &[u8]) -> Result<MemAsked, AllocError>
    ensures { IfOk result (λ now. (now.left.items ≡ left.now) × (now.written.items ≡ written.now)) }
{
    Ok(MemAsked {
        left: left.to_vec(alloc)?,
        written: written.to_vec(alloc)?,
    })
}

impl Conversation for MemConversation {
    type Sink = MemSink;

    ghost use Rattle.std.proofs.Common.{refl};
    ghost use Rattle.ram_outside.specs.MemConversation.{asks_known, with_mem_sink};

    ghost left = { λ talk. Some talk.script.left };

    ghost faults = { λ talk. talk.script.calls.faults };

    ghost asked = { asks_known };

    ghost report = { λ talk. talk.report };

    ghost with_report = { with_mem_sink };

    ghost laws = { record {
      report_is = λ talk sink. refl;
      same_left = λ talk sink. refl;
      same_faults = λ talk sink. refl;
      same_asked = λ talk sink. refl;
    } };

    fn take(&mut self, into: &mut [u8]) -> Take {
        self.note();
        self.script.take(into)
    }

    fn report_mut(&mut self) -> &mut MemSink {
        &mut self.report
    }
}
