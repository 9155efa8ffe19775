// Laws only: what a reading of bytes says of programs, and the other way. They stand in specs/.

#![tactic(auto)]
