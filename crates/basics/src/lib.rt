// What stands below every subject: there is no function here, and no type; what others use is in specs/.
#![tactic(auto)]
