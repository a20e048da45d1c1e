// Laws of exact numbers (integers, fractions, quadratics, distances) and of machine arithmetic, which the other crates cite. There is no code here.

#![tactic(auto)]
