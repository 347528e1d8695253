// Plain lists of vertices and views of them over any type of numbers: definitions and laws, and no function.
#![tactic(auto)]
