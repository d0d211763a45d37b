// Terms in the lent memory: building them, following a reference, taking them apart, unification.

#![tactic(auto)]

mod arguments;
pub mod build;
pub mod deref;
pub mod destruct;
pub mod unify;
