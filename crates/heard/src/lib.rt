// Demand 3, proved of the machine: no change goes unheard. The statements stand in specs/Demand.antt. Nothing runs here.
#![tactic(auto)]
