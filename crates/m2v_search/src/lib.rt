//! The search of motion vectors: of all vectors within reach the first one of least luma difference, in whole samples and
//! then among its neighbours at half samples.
#![tactic(auto)]

mod best;
mod difference;
mod far;
mod form;
mod half;
mod laws;
mod marks;
mod parts;
mod passing;
mod scan;
mod scratch;
mod sliding;
mod spot;
mod vector;
mod window;

pub use form::SearchForm;
pub use laws::law_first_least;
pub use scratch::SearchScratch;
pub use vector::{FieldsFound, Found, best_field_vectors_in, best_vector, best_vector_in};
