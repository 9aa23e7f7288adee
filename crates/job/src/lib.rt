// The job file and the listing.
#![tactic(auto)]

mod job;
mod listing;

pub use job::{Job, read_job};
pub use listing::{print_listing, print_refusal};
