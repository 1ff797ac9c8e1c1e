// Laws of sine, cosine and tangent: sizes and examples.
#![tactic(auto)]
