// The calls that zone_archive exports for C and Rust. Each answers 0, or document 01's number of the refusal.
#![tactic(auto)]

mod diagonal;
mod form;
mod grid;
mod images;
mod list;
mod marks;
mod pair;
mod recip;
mod sheet;
mod transform;
mod triplets;
mod weights;

pub use diagonal::{zone_smith3x3, zone_snf3x3};
pub use form::{zone_hermite3x3, zone_order_forms, zone_same_grid};
pub use grid::{
    zone_all_grid_addresses, zone_grid_index_from_address, zone_ir_grid_map, zone_rotate_grid_index,
};
pub use images::{
    zone_bz_grid_addresses, zone_bz_grid_fill, zone_bz_grid_sizes, zone_convert_bz_grid,
    zone_neighboring_grid_points, zone_rotate_bz_grid_index, zone_rotate_bz_grid_indices,
};
pub use list::zone_list;
pub use marks::zone_mark_candidates;
pub use pair::zone_worst_pair;
pub use recip::{zone_reciprocal_group, zone_reciprocal_point_group, zone_reciprocal_rotations};
pub use sheet::zone_class_sheet;
pub use transform::zone_transform_rotations;
pub use triplets::{zone_bz_triplets_at_q, zone_ir_triplets_at_q};
pub use weights::zone_class_weights;
