//! Laws of the definitions. They run nothing.

ghost use Rattle.pd_log.specs.Names.{BenchNamesStand};

/// A message that the bench's own ports know has in a log the name by which the bench tells it.
pub fn bench_names_stand()
    ensures { BenchNamesStand }
{}
