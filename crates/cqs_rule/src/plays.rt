//! What each step tells. These types are for the proofs alone.

ghost use Rattle.cqs_rule_laws.specs.Crew.{IsSole, counted_by, counted_after, tried_by, met_by};
ghost use Rattle.cqs_rule_laws.specs.Counts.{drew};
ghost use Rattle.cqs_rule_laws.specs.Events.{moved_by, exchanged_by, in_any_case};
ghost use Rattle.cqs_rule_laws.specs.Exchanges.{crossed};
ghost use Rattle.cqs_rule_laws.specs.Jumped.{jumped};
ghost use Rattle.cqs_rule_laws.specs.Loads.{loaded_by};
ghost use Rattle.cqs_rule_laws.specs.PassedOver.{passed_over};
ghost use Rattle.cqs_rule_laws.specs.SlotSteps.{took_out, put_back, filled, given_by, put_by};

use crate::queue::Numbered;
use atomic_table::{Join, Split};
use cqs_rule_laws::{ClientWords, Kind, Load, Shown, Telling, View};
use std::marker::{Brand, PhantomData};

/// A load of the suspend counter or of a cell.
pub(crate) struct Loading<C, L> {
    of: PhantomData<(C, L)>,
}

impl<C: ClientWords, L: Load> Telling<C> for Loading<C, L> {
    ghost told = { loaded_by C.object C.primitive L.load };
}

/// A cell of a later segment is loaded, by a resume that passes over its number.
pub(crate) struct PassingOver<C> {
    of: PhantomData<C>,
}

impl<C: ClientWords> Telling<C> for PassingOver<C> {
    ghost told = { passed_over C.object C.primitive };
}

/// The resume counter goes on past numbers whose segments were taken out.
pub(crate) struct Jumping<C> {
    of: PhantomData<C>,
}

impl<C: ClientWords> Telling<C> for Jumping<C> {
    ghost told = { jumped C.object C.primitive };
}

/// A number is drawn from a counter.
pub(crate) struct Draw<C, K> {
    of: PhantomData<(C, K)>,
}

impl<C: ClientWords, K: Kind> Telling<C> for Draw<C, K> {
    ghost told = { drew C.object K.step };
}

/// An exchange on a cell.
pub(crate) struct Cross<C, K> {
    of: PhantomData<(C, K)>,
}

impl<C: ClientWords, K: Kind> Telling<C> for Cross<C, K> {
    ghost told = { crossed C.object C.primitive K.step };
}

/// A load of a word of the client, or a step that changes it in any case, by the event that it
/// shows.
pub(crate) struct Show<C, M> {
    of: PhantomData<(C, M)>,
}

impl<C: ClientWords, M: Shown<C>> Telling<C> for Show<C, M> {
    ghost told = { moved_by C.object C.primitive M.event };
}

/// An exchange on a word of the client, by the event that it shows.
pub(crate) struct ShowExchange<C, M> {
    of: PhantomData<(C, M)>,
}

impl<C: ClientWords, M: Shown<C>> Telling<C> for ShowExchange<C, M> {
    ghost told = { exchanged_by C.object C.primitive M.event };
}

/// A step on a word of the client by which a slot is given away, with the value in it.
pub(crate) struct GivingAway<C, M, K> {
    of: PhantomData<(C, M, K)>,
}

impl<C: ClientWords, M: Shown<C>, K: Numbered> Telling<C> for GivingAway<C, M, K> {
    ghost told = { given_by C.object C.primitive M.event in_any_case K.slot };
}

/// A number is drawn to resume at, and paid for with an element, whose slot is given away with the
/// value in it.
pub(crate) struct Putting<C, K> {
    of: PhantomData<(C, K)>,
}

impl<C: ClientWords, K: Numbered> Telling<C> for Putting<C, K> {
    ghost told = { put_by C.object K.slot };
}

/// The load of the crew's word by which a slot is taken from its home.
pub(crate) struct TakingOut<C, K> {
    of: PhantomData<(C, K)>,
}

impl<C: ClientWords, K: Numbered> Telling<C> for TakingOut<C, K> {
    ghost told = { took_out C.object K.slot };
}

/// The load by which it is put back.
pub(crate) struct PuttingBack<C, K> {
    of: PhantomData<(C, K)>,
}

impl<C: ClientWords, K: Numbered> Telling<C> for PuttingBack<C, K> {
    ghost told = { put_back K.slot };
}

/// The load by which it is put back with its first value.
pub(crate) struct Filling<C, K> {
    of: PhantomData<(C, K)>,
}

impl<C: ClientWords, K: Numbered> Telling<C> for Filling<C, K> {
    ghost told = { filled K.slot };
}

/// A load of the crew's word.
pub(crate) struct Count<C> {
    of: PhantomData<C>,
}

impl<C: ClientWords> Telling<C> for Count<C> {
    ghost told = { counted_by C.object (IsSole C.primitive) };
}

/// A load of the crew's word by a pass that has a note of what another has seen.
pub(crate) struct CountAfter<C> {
    of: PhantomData<C>,
}

impl<C: ClientWords> Telling<C> for CountAfter<C> {
    ghost told = { counted_after C.object (IsSole C.primitive) };
}

/// How much of what its maker holds a pass gets that is made: a number of one call, which a type
/// names, since a step tells nothing by what its caller alone knows.
pub(crate) trait Gift {
    ghost use Rattle.std.specs.Prelude.{ℕ};

    ghost gives: { ℕ };
}

impl Gift for Brand {
    ghost gives = { 0 };
}

/// The exchange on the crew's word by which a pass is made.
pub(crate) struct Make<C, G> {
    of: PhantomData<(C, G)>,
}

impl<C: ClientWords, G: Gift> Telling<C> for Make<C, G> {
    ghost told = { tried_by C.object G.gives };
}

/// The step on the crew's word by which a pass that was joined away is counted out.
pub(crate) struct Meet<C> {
    of: PhantomData<C>,
}

impl<C: ClientWords> Telling<C> for Meet<C> {
    ghost told = { met_by C.object };
}

/// A view that counts for two is cut in two.
pub(crate) struct Cut;

impl<E, S> Split<View<E, S>> for Cut {
    ghost use Rattle.cqs_rule_laws.specs.Views.{single, cut_off};

    ghost left = { single };

    ghost right = { cut_off };
}

/// A view takes in that of another pass.
pub(crate) struct Gather;

impl<E, S> Join<View<E, S>> for Gather {
    ghost use Rattle.cqs_rule_laws.specs.Views.{joined, spent};

    ghost both = { joined };

    ghost spent = { spent };
}

/// A note of what a pass has seen is cut off its view, which stays as it is.
pub(crate) struct Noting;

impl<E, S> Split<View<E, S>> for Noting {
    ghost use Rattle.cqs_rule_laws.specs.Views.{note_of};

    ghost left = { λ v. v };

    ghost right = { note_of };
}

/// A view takes in a note.
pub(crate) struct Hearing;

impl<E, S> Join<View<E, S>> for Hearing {
    ghost use Rattle.cqs_rule_laws.specs.Views.{with_note, spent};

    ghost both = { with_note };

    ghost spent = { spent };
}
