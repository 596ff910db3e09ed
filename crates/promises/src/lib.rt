// Theorems about the promises themselves: that they are not empty, what they refuse, and worked values of the definitions that the contracts use.
#![tactic(auto)]

pub mod example;

ghost use Rattle.promises.specs.Accuracy.{Accuracy};
ghost use Rattle.promises.specs.Bites.{Bites};
ghost use Rattle.promises.specs.Values.{Values};

use points::kind::Kind;

// The accuracy of the kernel, whole, for every kind of point: a point of any pile, every chord of an accepted flattening, and every list of calls of a strand.
pub fn accuracy<K: Kind>()
    ensures { Accuracy K.coord K.width }
{}

// Every source that holds a polygon stands for a drawing, and lazy answers are refuted by the accuracy statements alone.
pub fn accuracy_bites()
    ensures { Bites }
{}

// Worked values: three mixes by 1/2, the point of a cubic, a raised polygon, and three flattenings.
pub fn worked_values()
    ensures { Values }
{}
