//! Reading the orders of a journal.
ghost use Rattle.std.specs.Prelude.{◌≡◌, ◌∷◌, ◌++◌, ◌+◌, ◌^◌, ◌<◌, [], IfErr, IfOk, List, None, OnOk, ℕ, map, string_bytes};
ghost use Rattle.bg_journal.specs.Bounds.{bound_in as bound_of};
ghost use Rattle.bg_order_journal.specs.Refusals.{OrderFaultIs, OrdersFaultIs};
ghost use Rattle.bg_order_journal.specs.Starts.{AreSaid};
ghost use Rattle.bg_script.specs.Survival.{AreReadFrom};

use crate::start_fault::StartFault;
use bg_history::Entry;
use bg_journal::{TextFault, append_entries, bound_in, read_entries};
use std::alloc::Global;

/// What the texts behind the first row of a journal say.
#[derive(Drop)]
pub(crate) struct Said {
    /// The entries of orders, the oldest first, without superseded ticks.
    pub entries: Vec<Entry>,
    /// The last bound of request numbers; 0 if there is none.
    pub numbers: u64,
    /// The number of orders.
    pub count: usize,
}

/// What these texts say, of which the oldest is the first. The error names the first line of an order that is that of no entry;
/// it is `OutOfMemory` if an allocation fails.
pub(crate) fn read_orders(alloc: Global, texts: &[String]) -> Result<Said, StartFault>
    ensures said { IfOk result (λ said.
        AreSaid (map string_bytes texts.now) said.entries.items said.numbers said.count) }
    ensures fault { IfErr result (OrdersFaultIs (map string_bytes texts.now)) }
{
    let mut said = Said {
        entries: Vec::new(alloc),
        numbers: 0,
        count: 0,
    };
    for place in 0..texts.len() {
        read_text(alloc, texts[place].as_str(), &mut said)?;
    }
    Ok(said)
}

/// Adds what one more text says.
fn read_text(alloc: Global, text: &str, said: &mut Said) -> Result<(), StartFault>
    requires { said.old.count + 1 < 2 ^ 64 }
    ensures said { OnOk result ((texts : List (List ℕ))
        → AreSaid texts said.old.entries.items said.old.numbers said.old.count
        → AreSaid (texts ++ text.now ∷ []) said.new.entries.items said.new.numbers said.new.count) }
    ensures order { IfErr result (λ _. bound_of text.now ≡ None) }
    ensures fault { IfErr result (OrderFaultIs text.now (said.old.count + 1)) }
{
    match bound_in(text) {
        Some(bound) => {
            said.numbers = bound;
            Ok(())
        }
        None => {
            said.count += 1;
            read_order(alloc, text, said.count, &mut said.entries)
        }
    }
}

/// Adds the entries of an order with this number to those of the orders before it.
fn read_order(
    alloc: Global,
    text: &str,
    order: usize,
    entries: &mut Vec<Entry>,
) -> Result<(), StartFault>
    requires { bound_of text.now ≡ None }
    ensures read { OnOk result ((texts : List (List ℕ)) → AreReadFrom texts entries.old.items
        → AreReadFrom (texts ++ text.now ∷ []) entries.new.items) }
    ensures fault { IfErr result (OrderFaultIs text.now order) }
{
    match read_entries(alloc, text) {
        Ok(later) => {
            append_entries(entries, later)?;
            Ok(())
        }
        Err(TextFault::BadLine(line)) => Err(StartFault::BadLine { order, line }),
        Err(TextFault::OutOfMemory) => Err(StartFault::OutOfMemory),
    }
}
