//! The floor of one worker, over resources that all workers share.

mod desk;
mod holdings;
mod meeting;
mod opening;
mod share_floor;
mod spots;

pub use opening::shared_floors;
pub use share_floor::{ShareFloor, tell_passes};
