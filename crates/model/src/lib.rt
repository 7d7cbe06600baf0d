// The folder tree, its ten calls and why each is refused, and what holds after any of them.
#![tactic(auto)]

mod laws;
mod refusal;

pub use laws::{
    branches_are_decided, fullness_is_decided, images_fit, leases_balance, names_stay_apart,
    numbers_are_given_once, open_keeps_the_tree, parents_lead_to_the_root, refusals_keep_all,
    topmost_reason_counts, trees_stay_sound,
};
pub use refusal::Refusal;
