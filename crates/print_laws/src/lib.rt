// What is printed from an operation's answer and outputs is its outcome: laws of the definitions, without code.
#![tactic(auto)]
