// Automata on linear orderings: steps, walks, claims, derivations, depth and rounds, as definitions with their theorems. No code of its own.
#![tactic(auto)]
