// What is promised of listings that are moved from one edition to the other: there and back nothing is lost. There is no code here.
#![tactic(auto)]
