//! What holds of all frames.

ghost use Rattle.std.specs.Prelude.{◌≡◌, ◌++◌, ℕ, List};
ghost use Rattle.l6_frame.specs.Frame.{BeginsWith};
ghost use Rattle.l6_frame.specs.Stream.{AreFrames};

/// Bytes begin with one frame at most, whatever comes after them.
pub fn frames_are_one()
    ensures { (bytes more body other rest following : List ℕ) → BeginsWith bytes body rest
        → BeginsWith (bytes ++ more) other following
        → (body ≡ other) × (rest ++ more ≡ following) }
{}

/// A stream has one reading, and where it is cut does not matter: the messages of its first piece, and
/// those of what was left of it with the next piece, are those of both pieces.
pub fn streams_have_one_reading()
    ensures one { (stream rest last : List ℕ) (bodies others : List (List ℕ))
        → AreFrames stream bodies rest → AreFrames stream others last
        → (bodies ≡ others) × (rest ≡ last) }
    ensures pieces { (stream more rest last : List ℕ) (bodies others : List (List ℕ))
        → AreFrames stream bodies rest → AreFrames (rest ++ more) others last
        → AreFrames (stream ++ more) (bodies ++ others) last }
{}
