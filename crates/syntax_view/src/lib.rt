//! Syntax trees as definitions speak of them: their forms as plain data, the way from the trees of the code, and one
//! equation for each form.
#![tactic(auto)]
