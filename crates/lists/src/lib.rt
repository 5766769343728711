// Words and laws of lists and tests, each once: definitions and laws, and no code.
#![tactic(auto)]
