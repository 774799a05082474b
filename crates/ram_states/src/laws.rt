//! A law of the states, as a function with an empty body: the build fails where it is not proved.

ghost use Rattle.model_drive.specs.Sound.{IsSound};
ghost use Rattle.ram_states.specs.Shown.{shown_state};

use crate::states::State;
use ram_medium::MediumControl;

/// What a state shows is sound.
///
/// # Clauses
///
/// - what a state shows is sound (`IsSound`).
pub fn what_a_state_shows_is_sound<M: MediumControl>(state: &State<M>)
    ensures { IsSound (shown_state state.now) }
{}
