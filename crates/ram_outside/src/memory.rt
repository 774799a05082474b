//! The outside held in memory, for tests and for callers that bring their bytes. Of each form all bytes are known; it
//! fails at the calls that it was given, and is proved against its trait.

mod calls;
pub mod conversation;
pub mod image;
pub mod opener;
pub mod sink;
pub mod source;

pub use conversation::{MemAsked, MemConversation};
pub use image::MemImage;
pub use opener::MemOpener;
pub use sink::MemSink;
pub use source::MemSource;
