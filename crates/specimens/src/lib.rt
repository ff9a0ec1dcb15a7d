// The worked cases as theorems, and the code on the same entries.
#![tactic(auto)]

ghost use Rattle.specimens.specs.Cases.{Cases};
ghost use Rattle.specimens.specs.ChartCases.{NothingGuarded};

use costs::measure::Measure;
use costs::reducer::Reducer;

// Every worked case is what the rules say.
pub fn cases_hold()
    ensures { Cases }
{}

// An event that guards nothing has (0; 0), in every measure and by every reducer.
pub fn nothing_guarded<M: Measure, R: Reducer<M>>()
    ensures { NothingGuarded M.Measure.ops M.Measure.meant R.Reducer.gives }
{}

#[cfg(test)]
mod chart_tests;
#[cfg(test)]
mod entries;
#[cfg(test)]
mod network_sheets;
#[cfg(test)]
mod network_tests;

#[cfg(test)]
mod tests {
    use crate::entries::entry;
    use costs::entry::Entry;
    use costs::keep::Keep;
    use costs::merge::Merge;
    use costs::reducer::Reducer;

    #[test]
    fn keep_and_merge(rt: HostRuntime) {
        let rows = [
            entry(5, &[1]),
            entry(5, &[1]),
            entry(4, &[1]),
            entry(3, &[2]),
        ];
        let mut into = [Entry::zero(); 4];
        assert_eq!(rt; Keep::reduce(&rows, &mut into), 2);
        assert_eq!(rt; &into[..2], [entry(5, &[1]), entry(3, &[2])].as_slice());
        assert_eq!(rt; Merge::reduce(&rows, &mut into), 1);
        assert_eq!(rt; into[0], entry(5, &[2]));
    }
}
