// What holds of every run, and that each run call keeps it: definitions and lemmas only.
#![tactic(auto)]
