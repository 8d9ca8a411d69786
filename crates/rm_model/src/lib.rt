//! The model of a BLIF text: names, covers and latches, which models are well formed, the ranks of
//! their covers, and the values of their observed points for given values of their sources.
#![tactic(auto)]

mod copies;
mod drivers;
mod evaluation;
mod form;
mod hashed_names;
mod laws;
mod list;
mod name_keys;
mod name_table;
mod numbering;
mod ordered_names;
mod parts;
mod points;
mod rank_search;
mod ranked_model;
mod ranking;
mod value;

pub use copies::{copy_cover, copy_latches, copy_names, copy_rows};
pub use evaluation::evaluate;
pub use form::is_well_formed;
pub use laws::{one_valuation, ranks_exist, ranks_follow, tokens_are};
pub use list::Listed;
pub use name_keys::NameKeys;
pub use name_table::NameTable;
pub use numbering::Numbering;
pub use parts::{Cover, Latch, LatchKind, Literal, Model, Name, Row, Timing};
pub use points::{copy_name, list_observed, push_names, sources};
pub use ranked_model::RankedModel;
pub use ranking::{RankFault, rank};
pub use value::cover_value;
