//! The model of the queue, on plain data: a fair semaphore as its users know it, the queue that
//! works under it, and the laws that tie the two together. Nothing runs here; the model that runs
//! is `cqs_core_run`.
//!
//! ```text
//!  the plain semaphore             the core, from which each part is read off
//!    free permits, way      <---     the state word; the resumptions under way
//!    door                   <---     the passes that must wait and have no number yet
//!    line, by number        <---     the cells that are Empty, Waiter or Value, or being left
//!    served                 <---     the cells that are Resumed, until their permit is looked at
//!    spoiled                <---     the cells that are Broken, until their suspend has come
//!    history of entries     <---     events: one atomic step of one pass each, with its entry
//! ```
//!
//! The definitions come in two parts, and the names of their files show which. Those that begin
//! with `Queue` know nothing of permits: cells, two counters, what each pass is doing, and every
//! step that any primitive may make of them, as one table. Those that begin with `Semaphore` have
//! the plain object, the table of events, and what it means that a core shows the object. Other
//! primitives stand on the first part, with objects of their own.
//!
//! A core is synchronous or not. Where it is, a resume that left its value in a cell watches it,
//! and may take it back and break the cell; then this resume and the suspend of the cell both fail.
//! Read with each broken cell as one whose value is still there, or was taken, such a queue makes
//! the moves of the other kind, so what is shown of those holds of it.
//!
//! A law is a function that does nothing: it is proved where the contract of a function says it.
#![tactic(auto)]

mod calls;
mod cells;
mod doings;
mod entries;
mod errors;
mod events;
mod law;
mod laws;
mod outcomes;
mod queue_laws;
mod shortage;

pub use calls::{Call, Reply};
pub use cells::{CoreCell, CoreState};
pub use doings::Doing;
pub use entries::Entry;
pub use errors::CoreError;
pub use events::Event;
pub use law::{
    broken_cells_were_broken_once, every_run_is_legal, every_run_of_either_is_legal,
    semaphore_steps_keep_the_core, sync_semaphore_steps_keep_the_core,
};
pub use laws::{
    numbers_are_broken_once, one_permit_goes_to_the_first, permits_are_collected_once,
    permits_are_conserved, service_is_in_order, waits_end_once,
};
pub use outcomes::Outcome;
pub use queue_laws::{
    drawn_numbers_are_near, moves_leave_unmade_cells_empty, moves_settle, settled_cells_stay,
    steps_keep_the_queue_sound, steps_settle,
};
pub use shortage::Memory;
