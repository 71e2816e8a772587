// Document 01's instruction machine, and the theorems that on every list of calls a fresh core, and the code of its calls, agree with it:
// specs/Machine.antt and specs/Theorem.antt. There is no code.

#![tactic(auto)]
