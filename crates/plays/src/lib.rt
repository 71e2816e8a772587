// Lists of calls, whatever the calls, the states and the answers are: specs/Plays.antt and specs/Theorems.antt. There is no code.

#![tactic(auto)]
