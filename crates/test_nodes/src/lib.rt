//! Types that contain themselves beside parts of other types, and inside of others.
#![tactic(auto)]

mod lists;
mod nodes;
mod parts;

pub use lists::List;
pub use nodes::Rose;
pub use parts::{Doc, Frame, Id, Width};
