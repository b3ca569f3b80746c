//! The sorting rules: which sort a raw sort stands for, which typed term a term, or the first rule that it does not meet.
#![tactic(auto)]

mod apply;
mod binders;
mod bits;
mod free;
mod head;
mod in_use;
mod laws;
mod live;
mod made;
mod names;
mod notes;
mod numeral;
mod patterns;
mod sorts;
mod symbol;
mod terms;
mod tester;
mod theory;
mod typed;
mod world;

pub use binders::is_bool;
pub use dt_rules::TyError;
pub use free::has_free_variable;
pub use in_use::{is_fun_in_use, is_sort_in_use};
pub use laws::{closed_terms, name_laws, sort_laws, soundness_laws, term_laws};
pub use names::take_number;
pub use numeral::numeral_value;
pub use sorts::{type_sort, type_sorts};
pub use symbol::is_theory_sort;
pub use terms::type_term;
pub use world::World;

#[cfg(test)]
mod tests;
