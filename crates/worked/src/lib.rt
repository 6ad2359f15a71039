// Worked values of the rules for packets, payloads and pacing, computed from the definitions.
#![tactic(auto)]

ghost use Rattle.worked.specs.Values.{WorkedValues};

/// States the worked values, together, as its contract.
pub fn worked_values()
    ensures { WorkedValues }
{}
