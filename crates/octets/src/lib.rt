// Numbers as octets, and lists of octets: definitions and their laws.
#![tactic(auto)]

ghost use Rattle.octets.specs.Laws.{Laws};

// Does nothing; its promise is the laws of this crate's definitions.
pub fn laws()
    ensures { Laws }
{}
