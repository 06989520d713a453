//! The laws of slots.
//!
//! Each function does nothing: a law is proved where the contract of a function says it.

ghost use Rattle.cqs_slots.specs.Laws.{CellsAreReset, CellsAreWritten, CellsOfLeftSegmentsAreSettled, ClaimedHeadsAreLit, CountsAreReset, CountsTell, DutiesAreDone, FirstSegmentsAreSound, FoundWordsAreLater, FreeSlotsAreClaimed, FullSegmentsLeave, HeadsTell, LinksRise, LinksTell, OpeningWordsShow, ResetsBegin, ResetSparesBecomeTheTail, SettledCellsAreDuties, SparesAreGivenBack, TailsTell, UnsettledCellsAreFew, UnsettledCellsStand, WordsBeforeShowNothing};

/// Slots open with some segments made, each in the slot of its number, and no cell settled.
pub fn slots_open()
    ensures shows { OpeningWordsShow }
    ensures sound { FirstSegmentsAreSound }
{}

/// Who exchanges a free head for a claimed one has the slot as a spare.
pub fn free_slots_are_claimed()
    ensures { FreeSlotsAreClaimed }
{}

/// Who has a spare may make it free again, whatever was reset in it.
pub fn spares_are_given_back()
    ensures { SparesAreGivenBack }
{}

/// A spare is reset word by word for the next segment: its 32 cells, then its number of settled
/// cells. Who looks there under the number of an old cell finds that one, or a later number's.
pub fn spares_are_reset()
    ensures begins { ResetsBegin }
    ensures cells { CellsAreReset }
    ensures counts { CountsAreReset }
{}

/// A spare that is reset in whole becomes the home of the segment after the last.
pub fn reset_spares_become_the_tail()
    ensures { ResetSparesBecomeTheTail }
{}

/// Whoever finds the head of the last segment claimed may make it live.
pub fn claimed_heads_are_lit()
    ensures { ClaimedHeadsAreLit }
{}

/// Whoever knows that all segments between two are out may raise the link of the first one's slot
/// to the second. The slot may be another segment's by then.
pub fn links_are_raised()
    ensures { LinksRise }
{}

/// Each settled cell is counted once: its pass has the duty from the settling step on.
pub fn settled_cells_are_counted()
    ensures owed { SettledCellsAreDuties }
    ensures done { DutiesAreDone }
{}

/// A segment leaves where its 32 cells are counted and it isn't the last one.
pub fn full_segments_leave()
    ensures { FullSegmentsLeave }
{}

/// So no segment leaves before all its cells are settled, and a cell that isn't stands in the home
/// of its segment.
pub fn segments_leave_settled()
    ensures left { CellsOfLeftSegmentsAreSettled }
    ensures stands { UnsettledCellsStand }
{}

/// A cell that isn't settled stands in one of the slots, or in the segment after the last: so these
/// are few, however many numbers were drawn.
pub fn unsettled_cells_are_few()
    ensures { UnsettledCellsAreFew }
{}

/// A place that is used again shows no word of an earlier number.
pub fn found_words_are_later()
    ensures { FoundWordsAreLater }
{}

/// A cell is written where it stands; a step on the words before the tail's leaves all that is
/// shown.
pub fn cells_are_written()
    ensures here { CellsAreWritten }
    ensures before { WordsBeforeShowNothing }
{}

/// What the tail, a head, a link and a number of settled cells tell the pass that loads them.
pub fn loads_tell()
    ensures tail { TailsTell }
    ensures head { HeadsTell }
    ensures link { LinksTell }
    ensures count { CountsTell }
{}
