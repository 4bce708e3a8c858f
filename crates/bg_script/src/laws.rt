//! Laws of the journal of a desk. Each stands on a function that does nothing.
ghost use Rattle.bg_script.specs.Survival.{BoundsSurvive, OrdersSurvive};

use crate::order_journal::OrderJournal;
use bg_journal::laws::{bounds_are_read, entries_say_no_bound, texts_differ};

/// Each order that a journal keeps survives a crash: whatever a start finds then, a book that is resumed from it has the
/// entries of these orders at the begin of its history, but for ticks that another tick directly follows.
pub fn orders_survive<J: OrderJournal>(journal: &J)
    ensures { OrdersSurvive (J.may_find journal.now) (J.kept journal.now) (J.doubt journal.now) }
{
    texts_differ();
    journal.survives();
}

/// The last bound of request numbers that a journal keeps survives a crash: a start finds it, whatever the crash leaves of the
/// orders behind it. So no number of the run that appended it is given twice.
pub fn bounds_survive<J: OrderJournal>(journal: &J)
    ensures { BoundsSurvive (J.may_find journal.now) (J.kept journal.now) (J.doubt journal.now) }
{
    bounds_are_read();
    entries_say_no_bound();
    journal.survives();
}
