// The archive for C, libzone_c.a: each export is a call of zone_c under the same name and clauses.
#![tactic(auto)]

mod diagonal;
mod form;
mod grid;
mod images;
mod list;
mod marks;
mod pair;
mod recip;
mod sheet;
mod transform;
mod triplets;
mod weights;
