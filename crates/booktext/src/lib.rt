// The lines of a book in tables, written one after the other into a text: each where there is room for it, and counted
// in any case. So the count tells afterwards whether the text was long enough.
#![tactic(auto)]

mod boundaries;
mod classes;
mod nodes;
pub mod printing;
mod putting;
mod roots;
