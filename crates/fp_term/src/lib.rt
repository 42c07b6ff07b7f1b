//! Names, types, terms, statements and signatures of higher-order logic.
#![tactic(auto)]

mod arities;
mod chain;
mod consts;
mod index;
mod instance;
mod items;
mod matching;
mod name;
mod number;
mod place;
mod signature;
mod spine;
mod statement;
mod substitute;
mod term;
mod threads;
mod ty;
mod typing;
mod variables;

pub use arities::Arities;
pub use chain::Chain;
pub use consts::Consts;
pub use index::Declared;
pub use instance::{find, inst, inst_ty, retype};
pub use items::Items;
pub use matching::{find_type, match_ty};
pub use name::{Name, equality_name, function_name, is_name, numbered, truth_name};
pub use number::next;
pub use place::Place;
pub use signature::Signature;
pub use spine::{apply, arguments, head};
pub use statement::{Statement, copy_all};
pub use substitute::{close_at, close_over, open_at, open_with};
pub use term::{Node, Term, depth, nodes, same};
pub use threads::cross_threads;
pub use ty::{Ty, TyNode, Tys, TysNode};
pub use typing::{TypeOfFault, function_of, function_of_all, type_of};
pub use variables::{add_variables, first_free, free_variables, hidden_type, occurs};
