// What is promised of a run in several calls. There is no code here.
#![tactic(auto)]
