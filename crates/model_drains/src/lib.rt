//! What a drain of pending blocks leaves, and when a synchronisation, a read and a write into the cache are good. Laws over the causes of
//! `model_cache` and the words of `model_costs`: functions with an empty body, of which the contract is the law. Nothing stands on them.
//!
//! Begin with `specs/Leaving.antt`: why a pending block cannot leave the cache.
#![tactic(auto)]

mod laws;

pub use laws::{
    a_call_with_the_cache_costs_one_block, a_drain_leaves_blocks_living,
    a_write_with_room_in_the_cache_is_good, what_can_leave_the_cache_does,
    what_is_pending_or_whole_is_read, what_was_tried_has_left_or_is_held_back,
};
