// Every row of the two tables, and the item row of a field.
#![tactic(auto)]

mod all_rows;
mod finds;

pub use all_rows::make_rows;
pub use finds::make_found;
