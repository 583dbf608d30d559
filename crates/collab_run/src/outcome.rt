use collab::World;
use replies::Answer;

/// What a line does that isn't refused.
#[derive(Drop)]
pub enum Outcome {
    /// It is answered, and nothing changes.
    Answered(Answer),
    /// It is answered, and this world takes the place of the one before.
    Changed(Answer, World),
}
