// What it is that two layouts, or two lists by value, are the same, and that each test for it decides. The code writes `==`.
#![tactic(auto)]
