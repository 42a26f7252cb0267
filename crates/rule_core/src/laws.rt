ghost use Rattle.rule_core.specs.Laws.{AcceptedFlows, FlowingAccepted};

/// A rule has no flow fault exactly where each atom fits and uses known slots alone, and in the end each slot is known.
/// The function does nothing.
pub fn flow_laws()
    ensures accepted { AcceptedFlows }
    ensures flowing { FlowingAccepted }
{}
