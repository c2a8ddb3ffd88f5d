// What a configuration says of networks.
#![tactic(auto)]

ghost use Rattle.preference.specs.Laws.{Laws};

// Does nothing; its promise is the laws of this crate's definitions.
pub fn laws()
    ensures { Laws }
{}
