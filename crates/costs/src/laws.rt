// The laws of entries, runs and reducers, as a theorem for every measure.
ghost use Rattle.costs.specs.Theorems.{CostLaws};

use crate::measure::Measure;

pub fn laws_hold<M: Measure>()
    ensures { CostLaws M.Measure.ops }
{}
