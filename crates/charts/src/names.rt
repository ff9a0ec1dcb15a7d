// The check of names: every number of a basic or a service sheet names something.
ghost use Rattle.std.specs.Prelude.{◌≡◌, ℕ, ◌<◌, [], length, None, Decides, MatchOption, MatchResult, slice_index_or};
ghost use Rattle.std.specs.List.{AllByRecursion};
ghost use Rattle.sheets.specs.Sheets.{count_of};
ghost use Rattle.sheets.specs.Shown.{shown_entry};
ghost use Rattle.charts.specs.Charts.{Within, NamedAction, NamedTransition, NamedEntry, no_action, no_transition, no_entry};
ghost use Rattle.charts.specs.Refusals.{number, level, place};
ghost use Rattle.charts.specs.Naming.{says, OffsetOf, AllPass, FailsFirst, FailsAt, Naming};

use crate::refusal::Refusal;
use sheets::field::ServiceEntry;
use sheets::opened::Checked;
use sheets::words::{Action, Item, Transition};

// Whether the number, if there is one, is below n.
fn is_within(number: Option<u8>, n: usize) -> bool
    ensures { Decides result (Within n number) }
{
    number.is_none_or(|k| usize::from(k) < n)
}

// Action j of state k.
pub(crate) fn action_at(sheet: &Checked<'_>, k: usize, j: usize) -> Action
    requires { j < length (slice_index_or (says sheet.now).states k []) }
    ensures { result ≡ slice_index_or (slice_index_or (says sheet.now).states k []) j no_action }
{
    sheet.action(k, j).unwrap()
}

// Transition k.
pub(crate) fn transition_at(sheet: &Checked<'_>, k: usize) -> Transition
    requires { k < length (says sheet.now).transitions }
    ensures { result ≡ slice_index_or (says sheet.now).transitions k no_transition }
{
    sheet.transition(k).unwrap()
}

// Service entry k.
pub(crate) fn entry_at<'a>(sheet: &Checked<'a>, k: usize) -> ServiceEntry<'a>
    requires { k < length (says sheet.now).entries }
    ensures { shown_entry result ≡ slice_index_or (says sheet.now).entries k no_entry }
{
    sheet.entry(k).unwrap()
}

// Whether the action's algorithm and output are there.
fn is_action_named(sheet: &Checked<'_>, action: Action) -> bool
    ensures { Decides result (NamedAction (says sheet.now) action) }
{
    is_within(action.algorithm, sheet.amounts())
        && is_within(action.output, sheet.interface().outputs as usize)
}

// Whether all actions of state k name something.
fn is_state_named(sheet: &Checked<'_>, k: usize) -> bool
    ensures { Decides result (AllByRecursion (NamedAction (says sheet.now)) (slice_index_or (says sheet.now).states k [])) }
{
    (0..sheet.actions(k)).all(|j| is_action_named(sheet, action_at(sheet, k, j)))
}

// Whether the transition's states and event are there.
fn is_transition_named(sheet: &Checked<'_>, transition: Transition) -> bool
    ensures { Decides result (NamedTransition (says sheet.now) transition) }
{
    let states = sheet.count(Item::State);
    (transition.source as usize) < states
        && (transition.destination as usize) < states
        && is_within(transition.event, sheet.interface().inputs as usize)
}

// Whether the event of service entry k is there.
fn is_entry_named(sheet: &Checked<'_>, k: usize) -> bool
    requires { k < length (says sheet.now).entries }
    ensures { Decides result (NamedEntry (says sheet.now) (slice_index_or (says sheet.now).entries k no_entry)) }
{
    entry_at(sheet, k).event < sheet.interface().inputs
}

// The refusal at the field of the k-th of an item.
fn unnamed(sheet: &Checked<'_>, item: Item, k: usize) -> Refusal
    requires { k < count_of item (says sheet.now) }
    ensures { (number result ≡ 5) × (level result ≡ 1) × OffsetOf sheet.now item k (place result) }
{
    Refusal::Unnamed {
        at: sheet.offset(item, k).unwrap(),
    }
}

// The first of n that does not pass the test.
fn first_failing<F: Fn(usize) -> bool>(n: usize, passes: F) -> Option<usize>
    requires { (k : ℕ) → k < n → F.pre passes k }
    ensures { MatchOption result (AllPass (F.post passes) n) (FailsFirst (F.post passes) n) }
{
    (0..n).find(
        |&k|
            requires { F.pre passes k }
        { !passes(k) },
    )
}

// Whether all of an item name something, by the test for the k-th; the first that does not is refused.
fn all_named<F: Fn(usize) -> bool>(
    sheet: &Checked<'_>,
    item: Item,
    is_named: F,
) -> Result<(), Refusal>
    requires { (k : ℕ) → k < count_of item (says sheet.now) → F.pre is_named k }
    ensures { MatchResult result (λ _. AllPass (F.post is_named) (count_of item (says sheet.now))) (FailsAt (F.post is_named) sheet.now item) }
{
    match first_failing(sheet.count(item), is_named) {
        Some(k) => Err(unnamed(sheet, item, k)),
        None => Ok(()),
    }
}

// Check 5 of a basic or a service sheet: whether every number names something. The first field that has one that does not is refused.
// A composite's numbers are not looked at here.
pub fn names(sheet: &Checked<'_>) -> Result<(), Refusal>
    ensures { Naming sheet.now result }
{
    all_named(sheet, Item::State, |k| is_state_named(sheet, k))?;
    all_named(sheet, Item::Transition, |k| {
        is_transition_named(sheet, transition_at(sheet, k))
    })?;
    all_named(sheet, Item::Entry, |k| is_entry_named(sheet, k))
}
