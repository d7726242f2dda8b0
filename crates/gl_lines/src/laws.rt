// What the frames of a connection's bytes are, whatever was kept of them.
ghost use Rattle.std.specs.Prelude.{◌≡◌, ◌++◌, ℕ, Bool, not, List, Option, map};
ghost use Rattle.std.specs.Option.{is_some};
ghost use Rattle.gl_lines.specs.LineFraming.{Framed};
ghost use Rattle.gl_lines.specs.LineFrames.{line_frames, has_long_line, last_line_frame, last_of_rest};
ghost use Rattle.gl_lines.specs.ZeroFraming.{frames_of};

/// The bytes of a connection have one list of frames with their places, and one rest, so that no other
/// frames stand for what a reader was given.
pub fn law_one_framing()
    ensures { (counts : Bool) (bytes : List ℕ) (frames others : List (ℕ × List ℕ)) (rest other : Option (List ℕ))
        → Framed counts bytes frames rest → Framed counts bytes others other → (frames ≡ others) × (rest ≡ other) }
{}

/// What a reader was given has the frames that the bytes have as a whole; the reader is closed exactly where a
/// frame of them is too long, and at its end it gives their last frame. More bytes give further frames, and change none.
pub fn law_frames_of_bytes()
    ensures frames { (counts : Bool) (bytes : List ℕ) (frames : List (ℕ × List ℕ)) (rest : Option (List ℕ)) → Framed counts bytes frames rest
        → map {B = List ℕ} (λ f. f.1) frames ≡ line_frames counts bytes }
    ensures closed { (counts : Bool) (bytes : List ℕ) (frames : List (ℕ × List ℕ)) (rest : Option (List ℕ)) → Framed counts bytes frames rest
        → is_some rest ≡ not (has_long_line counts bytes) }
    ensures last { (counts : Bool) (bytes : List ℕ) (frames : List (ℕ × List ℕ)) (rest : Option (List ℕ)) → Framed counts bytes frames rest
        → last_of_rest counts rest ≡ last_line_frame counts bytes }
    ensures begins { (counts : Bool) (bytes : List ℕ) (frames : List (ℕ × List ℕ)) (rest : Option (List ℕ)) → Framed counts bytes frames rest
        → (more : List ℕ) → (later : List (List ℕ)) × (line_frames counts (bytes ++ more) ≡ line_frames counts bytes ++ later) }
{}

/// More bytes of a connection give further frames that zero bytes end, and change none that ended before.
pub fn law_frames_begin()
    ensures { (bytes more : List ℕ) → (later : List (List ℕ)) × (frames_of (bytes ++ more) ≡ frames_of bytes ++ later) }
{}
