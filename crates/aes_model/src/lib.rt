// No code: each list that a lookup goes by holds what its rule says, and a column is made of what is looked up for its rows.
#![tactic(auto)]
