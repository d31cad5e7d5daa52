// What is promised of blocks: that what is written passes check, plays what was written, and gets to its park. There is no code here.
#![tactic(auto)]
