//! What the activations are that are seen at the boundaries of a run: the ended activations of methods in it, of which the bounds of
//! execution time speak. The definitions stand in `specs/`.
#![tactic(auto)]

pub mod counted;

ghost use Rattle.activation_laws.specs.Seen.{ActivationsAreSeen, ActivationsAreSeenOnce};
ghost use Rattle.activation_laws.specs.Profiled.{SeenAreWithin, ProfilesKeepBounds};
ghost use Rattle.activation_laws.specs.Called.{CalledKeepBounds};

/// The activations among what is seen of a run are exactly the ended activations of methods in it.
pub fn activations_are_seen()
    ensures { ActivationsAreSeen }
{
    // The laws are for the proof.
    activations::laws::places_tell_words();
    activations::laws::steps_are_told();
}

/// No two of them begin at one boundary.
pub fn activations_are_seen_once()
    ensures { ActivationsAreSeenOnce }
{
    // The law is for the proof.
    jop_core::laws::cycles_keep();
}

/// What is seen of a run is within what the followers count.
pub fn seen_are_within()
    ensures { SeenAreWithin }
{
    // The laws are for the proof.
    bytecode_typing::fitting_states_are_well_formed();
    jop_core::laws::cycles_keep();
    run_follower::watch::laws::rising_are_few();
}

/// The greatest number of cycles that a profile tells of a method is within the method's bound, where its activations keep the bounds of
/// loops.
pub fn profiles_keep_bounds()
    ensures { ProfilesKeepBounds }
{
    // The laws are for the proof.
    activations::laws::places_tell_words();
    activations::laws::steps_are_told();
    activations_are_seen();
}

/// An activation that a call of one method alone begins takes at most the bound of that method, where it keeps the bounds of loops.
pub fn called_keep_bounds()
    ensures { CalledKeepBounds }
{
    // The laws are for the proof.
    activations::laws::places_tell_words();
    activations::laws::steps_are_told();
}
