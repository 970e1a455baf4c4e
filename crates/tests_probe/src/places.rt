//! Where probes stand. The function does nothing: it has a law as its contract.
ghost use Rattle.tests_probe.specs.Places.{ProbesHavePlaces};

/// In every instrumented program the probe that hits the image of an event stands at the place that
/// the map lists for it: entries, exits, counted statements and labels.
pub fn probes_have_places()
    ensures { ProbesHavePlaces }
{}
