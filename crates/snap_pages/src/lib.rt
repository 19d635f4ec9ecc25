//! The source's pages in time: what they show now, and what each snapshot over them goes on showing.
#![tactic(auto, unfolding(crate::specs::Cuts::place_in))]

mod changing;
mod coming;
mod flushing;
mod law;
mod leaving;
mod owing;
mod pages;
mod pinning;
mod place;
mod pushing;
mod reading;
mod source;
#[cfg(test)]
mod tests;

pub use law::{
    cuts_name_places, debts_change_by_cut, sets_change_by_cut, snapshots_stay_by_cut,
    states_change_by_cut,
};
pub use pages::{SnapPages, may_move};
pub use place::Place;
