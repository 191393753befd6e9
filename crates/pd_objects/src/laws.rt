//! Laws of the objects.

ghost use Rattle.pd_objects.specs.Laws.{FixedSuppliesComeBack, SinkSuppliesComeBack, RequestsComeBack};

/// The fields of a fixed supply's object are those that were packed.
pub fn fixed_supplies_come_back()
    ensures { FixedSuppliesComeBack }
{}

/// The fields of a sink's supply's object are those that were packed.
pub fn sink_supplies_come_back()
    ensures { SinkSuppliesComeBack }
{}

/// The fields of a request's object are those that were packed.
pub fn requests_come_back()
    ensures { RequestsComeBack }
{}
