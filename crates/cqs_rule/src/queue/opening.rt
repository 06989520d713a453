//! How a queue is made.

ghost use Rattle.std.specs.Prelude.{◌≡◌, ◌⊎◌, ◌/◌, ◌<◌, ◌≤◌, false, true, length, IfOk, IsErrOf};
ghost use mathlib.Core.Logic.{◌↔◌};
ghost use Rattle.cqs_rule_laws.specs.declared.config.CancelMode.TheVariants.{Smart};
ghost use Rattle.cqs_rule_laws.specs.Configured.{is_config, is_small_config, largest_ample};
ghost use Rattle.cqs_rule_laws.specs.Manner.{mode_for};
ghost use Rattle.cqs_rule.specs.Passes.{pass_view, ample_of, client_of, passes_of, limit_of, mode_of, made_at_first, slots_of, IsOf};
ghost use Rattle.cqs_rule_laws.specs.Ruled.{cell_count};
ghost use Rattle.cqs_rule_laws.specs.Views.{first_view};

use crate::queue::homes::Homes;
use crate::queue::parked::Parked;
use crate::queue::spares::Spares;
use crate::queue::{Pass, Queue};
use cqs_rule_laws::{CancelMode, ClientWords, Config, MakeError, open_table};
use cqs_segment::CELLS;
use std::alloc::Global;

// The most looks at a value before its cell is broken.
const MOST_LOOKS: u32 = 1024;

impl<C: ClientWords> Queue<C> {
    /// A queue on a table of its own, and its first pass, which has number 0 and has seen nothing.
    /// The values at first need slots for their cells. It isn't synchronous.
    pub fn new(
        alloc: Global,
        config: Config,
        mode: CancelMode,
        client: C,
    ) -> Result<(Queue<C>, Pass<C>), MakeError>
        requires few { (C.primitive client).values ≤ 4096 }
        requires suits { is_config config ≡ true
            → config.limit ≤ (C.primitive client).most_limit }
        requires fit { is_config config ≡ true → (C.primitive client).values / 32 < config.slots }
        requires mode { (C.primitive client).opening.mode ≡ mode }
        requires manner { mode_for (C.primitive client).manner.leaving ≡ mode }
        requires plain { (C.primitive client).manner.watches ≡ false }
        requires unlooked { (C.primitive client).opening.looks ≡ 0 }
        ensures bad_config { IsErrOf result MakeError.BadConfig ↔ (is_config config ≡ false) }
        ensures client { IfOk result
            (λ made. (client_of made.0 ≡ client) × (passes_of made.0 ≡ config.passes)) }
        ensures mode { IfOk result
            (λ made. (limit_of made.0 ≡ config.limit) × (mode_of made.0 ≡ mode)) }
        ensures belongs { IfOk result (λ made. IsOf made.0 made.1) }
        ensures pass { IfOk result (λ made. pass_view made.1
            ≡ first_view config.passes config.limit
            (cell_count config.passes config.limit (C.primitive client).values)
            config.slots (made_at_first config (C.primitive client).values)
            (C.primitive client).opening (C.primitive client).held) }
        ensures slots { IfOk result (λ made. slots_of made.0 ≡ C.value_slots client) }
    {
        Queue::open(alloc, config, mode, 0, client)
    }

    /// The same of a synchronous queue, in smart mode: a resume that left its value looks at it so
    /// often, and breaks the cell where nobody took it. It looks at most 1,024 times.
    pub fn new_sync(
        alloc: Global,
        config: Config,
        looks: u32,
        client: C,
    ) -> Result<(Queue<C>, Pass<C>), MakeError>
        requires few { (C.primitive client).values ≤ 4096 }
        requires suits { is_config config ≡ true
            → config.limit ≤ (C.primitive client).most_limit }
        requires fit { is_config config ≡ true → (C.primitive client).values / 32 < config.slots }
        requires mode { (C.primitive client).opening.mode ≡ Smart }
        requires manner { mode_for (C.primitive client).manner.leaving ≡ Smart }
        requires watches { (C.primitive client).manner.watches ≡ true }
        requires looks { (C.primitive client).opening.looks ≡ looks }
        ensures bad_config { IsErrOf result MakeError.BadConfig
            ↔ ((1024 < looks) ⊎ (is_config config ≡ false)) }
        ensures client { IfOk result
            (λ made. (client_of made.0 ≡ client) × (passes_of made.0 ≡ config.passes)) }
        ensures mode { IfOk result
            (λ made. (limit_of made.0 ≡ config.limit) × (mode_of made.0 ≡ Smart)) }
        ensures belongs { IfOk result (λ made. IsOf made.0 made.1) }
        ensures pass { IfOk result (λ made. pass_view made.1
            ≡ first_view config.passes config.limit
            (cell_count config.passes config.limit (C.primitive client).values)
            config.slots (made_at_first config (C.primitive client).values)
            (C.primitive client).opening (C.primitive client).held) }
        ensures slots { IfOk result (λ made. slots_of made.0 ≡ C.value_slots client) }
    {
        if looks > MOST_LOOKS {
            return Err(MakeError::BadConfig);
        }
        Queue::open(alloc, config, CancelMode::Smart, looks, client)
    }

    /// As `new`, with slots for all segments that can be wanted, where the configuration has fewer:
    /// no call needs a spare slot then. The limit is at most 1,048,576.
    pub fn ample(
        alloc: Global,
        config: Config,
        mode: CancelMode,
        client: C,
    ) -> Result<(Queue<C>, Pass<C>), MakeError>
        requires few { (C.primitive client).values ≤ 4096 }
        requires suits { largest_ample ≤ (C.primitive client).most_limit }
        requires mode { (C.primitive client).opening.mode ≡ mode }
        requires manner { mode_for (C.primitive client).manner.leaving ≡ mode }
        requires plain { (C.primitive client).manner.watches ≡ false }
        requires unlooked { (C.primitive client).opening.looks ≡ 0 }
        ensures bad_config { IsErrOf result MakeError.BadConfig ↔ (is_small_config config ≡ false) }
        ensures client { IfOk result
            (λ made. (client_of made.0 ≡ client) × (passes_of made.0 ≡ config.passes)) }
        ensures mode { IfOk result
            (λ made. (limit_of made.0 ≡ config.limit) × (mode_of made.0 ≡ mode)) }
        ensures belongs { IfOk result (λ made. IsOf made.0 made.1) }
        ensures pass { IfOk result (λ made. pass_view made.1
            ≡ first_view config.passes config.limit
            (cell_count config.passes config.limit (C.primitive client).values)
            (pass_view made.1).slots (length (pass_view made.1).segments.homes)
            (C.primitive client).opening (C.primitive client).held) }
        ensures slots { IfOk result (λ made. slots_of made.0 ≡ C.value_slots client) }
        ensures ample { IfOk result (λ made. ample_of made.0 ≡ true) }
    {
        if !config.is_small() {
            return Err(MakeError::BadConfig);
        }
        let cells = config.limit + u64::from(config.passes) + u64::from(client.values());
        let enough = (cells / CELLS) as u32 + 2 * config.passes + 2;
        let slots = config.slots.max(enough);
        Queue::new(alloc, Config { slots, ..config }, mode, client)
    }

    // A queue of either kind.
    fn open(
        alloc: Global,
        config: Config,
        mode: CancelMode,
        looks: u32,
        client: C,
    ) -> Result<(Queue<C>, Pass<C>), MakeError>
        requires few { (C.primitive client).values ≤ 4096 }
        requires suits { is_config config ≡ true
            → config.limit ≤ (C.primitive client).most_limit }
        requires fit { is_config config ≡ true → (C.primitive client).values / 32 < config.slots }
        requires mode { (C.primitive client).opening.mode ≡ mode }
        requires manner { mode_for (C.primitive client).manner.leaving ≡ mode }
        requires looks { (C.primitive client).opening.looks ≡ looks }
        ensures bad_config { IsErrOf result MakeError.BadConfig ↔ (is_config config ≡ false) }
        ensures client { IfOk result
            (λ made. (client_of made.0 ≡ client) × (passes_of made.0 ≡ config.passes)) }
        ensures mode { IfOk result
            (λ made. (limit_of made.0 ≡ config.limit) × (mode_of made.0 ≡ mode)) }
        ensures belongs { IfOk result (λ made. IsOf made.0 made.1) }
        ensures pass { IfOk result (λ made. pass_view made.1
            ≡ first_view config.passes config.limit
            (cell_count config.passes config.limit (C.primitive client).values)
            config.slots (made_at_first config (C.primitive client).values)
            (C.primitive client).opening (C.primitive client).held) }
        ensures slots { IfOk result (λ made. slots_of made.0 ≡ C.value_slots client) }
    {
        if !config.is_in_range() {
            return Err(MakeError::BadConfig);
        }
        let held = client.held();
        let cells = config.limit + u64::from(config.passes) + u64::from(client.values());
        // Where there are slots enough for all segments that can be wanted, and for the spare ones
        // of all passes, no call has to make one.
        let spares = 2 * u64::from(config.passes);
        let ample = cells / CELLS + spares + 2 <= u64::from(config.slots);
        let filled = if ample {
            cells
        } else {
            u64::from(client.values())
        };
        let made = (filled / CELLS) as u32 + 1;
        let (table, seat) = open_table(alloc, &config, config.slots, made, client)?;
        let queue = Queue {
            table,
            passes: config.passes,
            limit: config.limit,
            segment_slots: config.slots,
            ample,
            mode,
            looks,
            parked: Parked::new(),
        };
        Ok((
            queue,
            Pass {
                seat,
                number: 0,
                held,
                further: 0,
                owes: false,
                waits: 0,
                ticket: 0,
                spares: Spares::Nothing,
                homes: Homes::none(),
            },
        ))
    }
}
