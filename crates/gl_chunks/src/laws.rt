// What the answers are by all datagrams, without a table.
ghost use Rattle.std.specs.Prelude.{◌≡◌, ℕ, List};
ghost use Rattle.gl_chunks.specs.Chunks.{chunk_answer};
ghost use Rattle.gl_chunks.specs.Answers.{Datagram, AreAnswers, answer_of, taken_at};

/// The answer of `Chunks` to a datagram is the first case that fits among those that are told by the earlier datagrams
/// and their answers alone; and all lists of datagrams have answers so.
pub fn law_chunk_answers()
    ensures answer { (given : List (ℕ × List ℕ)) (earlier : List Datagram) → AreAnswers given earlier
        → (moment : ℕ) (bytes : List ℕ) → chunk_answer given moment bytes ≡ answer_of earlier (taken_at earlier moment) bytes }
    ensures some { (given : List (ℕ × List ℕ)) → (earlier : List Datagram) × AreAnswers given earlier }
{}
