// Derivations from weighted rules, and the search for one of least weight: definitions and theorems.
// A function here does nothing: its contract is a theorem, for every measure W.
#![tactic(auto)]

ghost use Rattle.derivation.specs.Theorems.{FloorsBelow, Optimal, Exact, Agree, Surveyed, BlankFits, HeavierFits, FitBelow, Decided};
ghost use Rattle.derivation.specs.Maps.{ContextsLeast, MapFits};
ghost use Rattle.derivation.specs.Examples.{Table};

use measure::Measure;

// The floors of a guide that fits are no heavier than any derivation.
pub fn floors_below<W: Measure>()
    ensures { FloorsBelow W.Measure.ops }
{}

// A search under a guide that fits answers the least weight, and its line derives the target at it.
pub fn optimal<W: Measure>()
    ensures { Optimal W.Measure.ops }
{}

// Which facts a search closes, at which weights, and how many.
pub fn exact<W: Measure>()
    ensures { Exact W.Measure.ops }
{}

// Two guides that fit give one answer.
pub fn agree<W: Measure>()
    ensures { Agree W.Measure.ops }
{}

// A survey closes exactly the derivable facts, each at its least weight.
pub fn surveyed<W: Measure>()
    ensures { Surveyed W.Measure.ops }
{}

// The guide that answers nothing fits.
pub fn blank_fits<W: Measure>()
    ensures { BlankFits W.Measure.ops }
{}

// The heavier of two guides that fit fits.
pub fn heavier_fits<W: Measure>()
    ensures { HeavierFits W.Measure.ops }
{}

// Fit depends only on the facts that standing rules name, and on the target.
pub fn fit_below<W: Measure>()
    ensures { FitBelow W.Measure.ops }
{}

// The check of fit decides it, and tells what fails first.
pub fn decided<W: Measure>()
    ensures { Decided W.Measure.ops }
{}

// Contexts give each fact the least weight of a chain of moves to the target.
pub fn contexts_least<W: Measure>()
    ensures { ContextsLeast W.Measure.ops }
{}

// A guide made from any map of the facts fits.
pub fn map_fits<W: Measure>()
    ensures { MapFits W.Measure.ops }
{}

// What the definitions give on worked examples.
pub fn worked_examples()
    ensures { Table }
{}
