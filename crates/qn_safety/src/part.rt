//! The part of an operation on one of three images.
use qn_model::What;

/// How the part of a disk operation on one image stands (this project's profile).
#[derive(Clone, Copy)]
pub enum Part {
    /// It is out: it has neither landed nor failed.
    Pending,
    /// It took effect, and did not fail since. What it took there is the entry that would answer the operation if this
    /// image were the only one.
    Landed(What),
    /// It failed, whether it had landed before or not.
    Failed,
}
