// Laws of folding under every measure.
ghost use Rattle.abstraction.specs.Folds.{FoldedWeighted};
ghost use Rattle.abstraction.specs.Made.{MadeFits};

use measure::Measure;

// The weighted rules that folding writes are the folds of the weighted rules that it reads.
pub fn folded_weighted<W: Measure>()
    ensures { FoldedWeighted W.Measure.ops }
{}

// The map guide over columns that were made fits.
pub fn made_fits<W: Measure>()
    ensures { MadeFits W.Measure.ops }
{}
