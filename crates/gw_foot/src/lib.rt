//! Which entries of the tables a request may claim, and what follows for requests that are executed side by side.
#![tactic(auto)]

mod gather;
mod laws;
mod merge;
mod requested;
mod requests;

pub use gather::one_context;
pub use laws::{
    a_part_with_its_footprint_covers_a_request, footprints_are_the_same_while_others_are_out,
    keys_after_another, keys_that_do_not_meet_are_apart, requests_keep_to_their_keys,
    requests_on_other_keys_change_places, requests_own_what_is_unused,
};
pub use merge::meets;
pub use requests::{footprint, footprint_keys, is_for_all};
