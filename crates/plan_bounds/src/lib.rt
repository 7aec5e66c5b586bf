// What bounds a plan: the numbers in its edits fit a record's fields, so edits are read back from the outputs as they were; and
// how long outputs are that no plan of so many records and places outgrows. Definitions and laws.
#![tactic(auto)]
