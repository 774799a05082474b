//! Which lists a disc gives, which of them are chosen, and what a disc stands for by them. Definitions alone, and their
//! laws.
#![tactic(auto)]

mod laws;
mod move_laws;
mod start_laws;
mod worked;

pub use laws::{
    a_bare_disc_gives_none, a_choice_gives_whole_pairs, a_mount_leaves_valid_and_settled_lists,
    a_repair_gives_no_other_lists, a_stopped_update_gives_one_of_two, chosen_lists_are_given,
    dead_list_cells_give_no_other_lists, given_lists_are_valid, list_cells_hold_no_data,
    nothing_new_gives_no_other_lists, one_pair_is_chosen, seen_lists_were_given,
    settled_lists_are_given_alone, settled_lists_have_the_mark, three_causes_choose_none,
    whole_pairs_are_what_a_choice_may_give,
};
pub use move_laws::{
    a_move_frees_no_spare, a_write_at_home_is_covered, an_expansion_is_covered,
    covers_in_an_update, expanded_lists_are_valid, free_spares_differ, moved_lists_are_valid,
    one_home_moves,
};
pub use start_laws::{
    a_choice_is_made, a_disc_gives_sixty_four_pairs_at_most, a_disc_has_a_start,
    a_disc_has_one_start, a_disc_without_sectors_fits_no_lists, a_start_covers_what_is_given,
    chosen_lists_stand_first,
};
pub use worked::{
    worked_differing_copies, worked_expansion, worked_homes, worked_lists, worked_moves,
    worked_seen, worked_settled,
};
