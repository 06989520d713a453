//! The floors that the workers of a plan are given.

use cqs_floor_shared_any::AnyShared;
use cqs_floor_shared_queue::ShareFloor;

/// The floor of one worker, over primitives of the running queue that all workers share.
pub type SharedQueueFloor = ShareFloor<AnyShared>;
