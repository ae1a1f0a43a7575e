// Numbers and lists of a sheet as bytes, and bytes that stand in a sheet. No code.
#![tactic(auto)]
