//! The law of relative completeness of star: rows along exact normals bound what the second case
//! links as well as any rows that one turn implies.
#![tactic(auto)]

mod laws;

pub use laws::{
    finishing_loses_nothing, repetition_is_relatively_complete, star_is_relatively_complete,
};
