//! What is said of a finding, apart from where it is.

use crate::finding::Finding;
use crate::texts::{Advice, Sentence};
use std::alloc::{AllocError, Global};

/// What is said of a finding.
#[derive(Drop)]
pub struct Said {
    /// What is wrong.
    pub sentence: String,
    /// Advice, or nothing.
    pub advice: String,
}

impl Finding<'_> {
    /// What is said of it, without its card, its column and how bad it is.
    ///
    /// # Errors
    ///
    /// Memory ran out.
    pub fn said(&self, alloc: Global) -> Result<Said, AllocError> {
        let sentence = Sentence(*self);
        let advice = Advice(*self);
        Ok(Said {
            sentence: format!(in alloc; "{sentence}")?,
            advice: format!(in alloc; "{advice}")?,
        })
    }
}
