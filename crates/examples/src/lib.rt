// The rules on examples: what the definitions give beside what the documents say.
#![tactic(auto)]

ghost use Rattle.examples.specs.Examples.{Examples};

// Does nothing; its promise is that every example comes out as the documents say.
pub fn examples()
    ensures { Examples }
{}
