// Of the preempters, nothing but their lines matters: statements about the calls on a file, in specs/, and no function.
#![tactic(auto)]
