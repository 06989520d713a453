//! Where a pass keeps that segments stand, so that it needn't look for them again.

ghost use Rattle.std.specs.Prelude.{◌≡◌, IfSome};
ghost use Rattle.cqs_rule_laws.specs.Placed.{KnowsPlace};
ghost use Rattle.cqs_segment.specs.Links.{IsPlaced};
ghost use Rattle.cqs_rule.specs.Homes.{KnowsHome};
ghost use Rattle.cqs_rule.specs.Passes.{pass_view, IsOf};

use crate::queue::{Pass, Queue};
use cqs_rule_laws::{CELLS_WORD, ClientWords, Place, SLOT_STRIDE};
use cqs_segment::CELLS;
use cqs_words::LinkWord;

/// A segment, and the word of its first cell. What a pass knows of it is so for good.
#[derive(Clone, Copy, Drop)]
pub(crate) struct Home {
    id: u64,
    first: u32,
}

/// The segments of the last cells that a pass looked for to suspend and to resume at.
#[derive(Clone, Copy, Drop)]
pub(crate) struct Homes {
    suspended: Option<Home>,
    resumed: Option<Home>,
}

impl Homes {
    pub(crate) const fn none() -> Self
        ensures { result ≡ record { suspended = None; resumed = None } }
    {
        Homes {
            suspended: None,
            resumed: None,
        }
    }
}

impl<C: ClientWords> Pass<C> {
    /// Where the cell of this number stood, if the pass keeps where its segment does. This is no
    /// step.
    #[inline(always)]
    pub fn kept_place(&self, index: u64) -> Option<Place>
        ensures { IfSome result (λ at. (at.index ≡ index) × KnowsPlace (pass_view self.now) at) }
    {
        match self.kept_home() {
            Some(home) if home.id == index / CELLS => Some(Place {
                word: home.first + (index % CELLS) as u32,
                index,
            }),
            _ => None,
        }
    }

    // Where the segment of the last such cell stood.
    #[inline(always)]
    fn kept_home(&self) -> Option<Home>
        ensures { IfSome result (KnowsHome (pass_view self.now)) }
    {
        if self.owes {
            self.homes.resumed
        } else {
            self.homes.suspended
        }
    }

    /// That segment, with its slot, from which links may lead to the next. This is no step.
    #[inline(always)]
    pub(crate) fn kept_segment(&self) -> Option<LinkWord>
        ensures { IfSome result (λ at. IsPlaced at (pass_view self.now)) }
    {
        match self.kept_home() {
            Some(home) => Some(LinkWord {
                id: home.id,
                slot: (home.first - CELLS_WORD) / SLOT_STRIDE as u32,
            }),
            None => None,
        }
    }
}

impl<C: ClientWords> Queue<C> {
    /// The pass keeps where the segment of this cell stands, in place of the last one that it kept
    /// for such a call: as it owed a resumption, or as it owed none. This is no step.
    #[inline(always)]
    pub fn keep_place(&self, pass: &mut Pass<C>, at: Place)
        requires belongs { IsOf self.now pass.old }
        requires place { KnowsPlace (pass_view pass.old) at }
        ensures belongs { IsOf self.now pass.new }
        ensures same { pass_view pass.new ≡ pass_view pass.old }
    {
        let home = Some(Home {
            id: at.index / CELLS,
            first: at.word - (at.index % CELLS) as u32,
        });
        if pass.owes {
            pass.homes.resumed = home;
        } else {
            pass.homes.suspended = home;
        }
    }
}
