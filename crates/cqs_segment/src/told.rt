//! What each single step tells. These types are for the proofs alone.

ghost use Rattle.cqs_segment.specs.Told.{add_told, back_told, begin_told, claim_told, count_told, extend_told, head_told, last_told, light_told, link_told, raise_told, reset_told, retire_told, see_told, tail_told};

use cqs_rule_laws::{ClientWords, Telling};
use std::marker::PhantomData;

/// The tail is loaded.
pub(crate) struct TailLoad<C> {
    of: PhantomData<C>,
}

impl<C: ClientWords> Telling<C> for TailLoad<C> {
    ghost told = { tail_told };
}

/// The tail is loaded by a pass that is to retire a segment.
pub(crate) struct LastKeeping<C> {
    of: PhantomData<C>,
}

impl<C: ClientWords> Telling<C> for LastKeeping<C> {
    ghost told = { last_told };
}

/// The head of a slot is loaded.
pub(crate) struct HeadLoad<C> {
    of: PhantomData<C>,
}

impl<C: ClientWords> Telling<C> for HeadLoad<C> {
    ghost told = { head_told };
}

/// The head of a slot is looked at by a pass that took a segment out.
pub(crate) struct HeadLook<C> {
    of: PhantomData<C>,
}

impl<C: ClientWords> Telling<C> for HeadLook<C> {
    ghost told = { see_told };
}

/// The link of a slot is loaded.
pub(crate) struct LinkLoad<C> {
    of: PhantomData<C>,
}

impl<C: ClientWords> Telling<C> for LinkLoad<C> {
    ghost told = { link_told };
}

/// The link of a slot is raised.
pub(crate) struct Raising<C> {
    of: PhantomData<C>,
}

impl<C: ClientWords> Telling<C> for Raising<C> {
    ghost told = { raise_told };
}

/// A slot's number of counted cells is loaded.
pub(crate) struct CountLoad<C> {
    of: PhantomData<C>,
}

impl<C: ClientWords> Telling<C> for CountLoad<C> {
    ghost told = { count_told };
}

/// A free slot is claimed.
pub(crate) struct Claiming<C> {
    of: PhantomData<C>,
}

impl<C: ClientWords> Telling<C> for Claiming<C> {
    ghost told = { claim_told };
}

/// The last spare slot is given back.
pub(crate) struct GivingBack<C> {
    of: PhantomData<C>,
}

impl<C: ClientWords> Telling<C> for GivingBack<C> {
    ghost told = { back_told };
}

/// The reset of the last spare slot begins: the tail is loaded.
pub(crate) struct Beginning<C> {
    of: PhantomData<C>,
}

impl<C: ClientWords> Telling<C> for Beginning<C> {
    ghost told = { begin_told };
}

/// One more word of the last spare slot is reset.
pub(crate) struct Resetting<C> {
    of: PhantomData<C>,
}

impl<C: ClientWords> Telling<C> for Resetting<C> {
    ghost told = { reset_told };
}

/// The head of a segment is made live.
pub(crate) struct Lighting<C> {
    of: PhantomData<C>,
}

impl<C: ClientWords> Telling<C> for Lighting<C> {
    ghost told = { light_told };
}

/// The last spare slot becomes the home of the segment after the tail's.
pub(crate) struct Extending<C> {
    of: PhantomData<C>,
}

impl<C: ClientWords> Telling<C> for Extending<C> {
    ghost told = { extend_told };
}

/// The last of the cells that are to be counted is counted.
pub(crate) struct Counting<C> {
    of: PhantomData<C>,
}

impl<C: ClientWords> Telling<C> for Counting<C> {
    ghost told = { add_told };
}

/// A segment is taken out.
pub(crate) struct Retiring<C> {
    of: PhantomData<C>,
}

impl<C: ClientWords> Telling<C> for Retiring<C> {
    ghost told = { retire_told };
}
