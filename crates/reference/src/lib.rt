// Document 01's instruction table and cycle list, each said a second time as one page, and the forms of words: specs/Instructions.antt,
// specs/Cycles.antt and specs/Forms.antt. There is no code.

#![tactic(auto)]
