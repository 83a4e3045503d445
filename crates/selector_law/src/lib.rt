// The theorem over lists of calls on a selector, stated by the eight-place rule. No code.
#![tactic(auto)]

ghost use Rattle.selector_law.specs.Rule.{SelectorLaw};

// What holds of any list of calls on one selector, from a fresh one and any doubles in the store.
pub fn selector_law()
    ensures { SelectorLaw }
{}
