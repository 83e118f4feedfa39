//! Which methods activations load, and their frames' stays in loops: laws, which `specs/Loads` has. The functions do nothing; a
//! caller whose proof needs a law calls its function.

ghost use Rattle.bound_laws.specs.Soundness.Loads.{ActivationsLoadOnce, LoadsAreMisses, LoadsAreOfLookUps, StaysLoadOnce};

use method_cache::regions::laws::{each_member_is_loaded_once, loads_follow};

/// Where all that may run while a method does fits the cache together, an activation of it loads each method at most once, whatever
/// the cache held.
pub fn activations_load_once()
    ensures { ActivationsLoadOnce }
{
    // The laws are for the proof.
    activations::laws::places_tell_words();
    activations::laws::steps_are_told();
    activations::laws::activations_are_trees();
    bound_rules::laws::methods_have_code();
    each_member_is_loaded_once();
    loads_follow();
    base::laws::packed_has_words();
}

/// What an activation loads are the loads of its look-ups one after another.
pub fn loads_are_of_look_ups()
    ensures { LoadsAreOfLookUps }
{
    activations::laws::steps_are_told();
    loads_follow();
}

/// Where a method, and what the calls in a loop of it may run, fit the cache together, each stay of a frame of the method in the loop
/// loads each method at most once, whatever the cache held.
pub fn stays_load_once()
    ensures { StaysLoadOnce }
{
    // The laws are for the proof.
    activations::laws::places_tell_words();
    activations::laws::steps_are_told();
    activations::laws::activations_are_trees();
    bound_rules::laws::methods_have_code();
    each_member_is_loaded_once();
    loads_follow();
    base::laws::packed_has_words();
}

/// The machine counts a miss just where a step loads.
pub fn loads_are_misses()
    ensures { LoadsAreMisses }
{}
