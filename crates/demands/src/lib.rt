// What is proved of the machine, carried to the code: theorems about the definitions that the contracts of table and round name, over whole
// histories of their calls. Nothing runs here.
#![tactic(auto)]
