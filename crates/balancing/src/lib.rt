// Balancing: what the entries of a volume come to, by payee and currency.
#![tactic(auto)]

mod table;

pub use table::balance;
