//! Worked scripts with the text of every line, computed by the definitions of the group: they hold by computing alone.
#![tactic(auto)]
