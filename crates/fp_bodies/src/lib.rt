//! That the bodies of a group's definitions are well typed: laws over `fp_spec` alone.
#![tactic(auto)]
