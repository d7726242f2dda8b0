// What the streams of a message are, said of each id.
ghost use Rattle.std.specs.Prelude.{◌≡◌, ◌<◌, ℕ, List, length};
ghost use Rattle.gl_fields.specs.Fields.{Rises};
ghost use Rattle.gl_fields.specs.declared.field.Field.{Field};
ghost use Rattle.gl_streams.specs.declared.stream.Stream.{Stream};
ghost use Rattle.gl_streams.specs.Ids.{streams_of, has_id, is_given, with_id, without_id};

/// Law: the ids to which a message goes rise strictly, and an id is among them exactly where it is that of a
/// stream that matches, or is 1 and no stream that matches removes the message from the default stream. There is always one.
pub fn law_streams_rise()
    ensures rises { (streams : List Stream) (fields : List Field) → Rises (λ (a b : ℕ). a < b) (streams_of streams fields) }
    ensures exactly { (streams : List Stream) (fields : List Field) (id : ℕ) → has_id id (streams_of streams fields) ≡ is_given id streams fields }
    ensures some { (streams : List Stream) (fields : List Field) → 0 < length (streams_of streams fields) }
{}

/// Law: ids that rise still do with one put in and with one taken out.
pub fn law_ids_stay_rising()
    ensures put { (ids : List ℕ) (id : ℕ) → Rises (λ (a b : ℕ). a < b) ids → Rises (λ (a b : ℕ). a < b) (with_id ids id) }
    ensures taken { (ids : List ℕ) (id : ℕ) → Rises (λ (a b : ℕ). a < b) ids → Rises (λ (a b : ℕ). a < b) (without_id ids id) }
{}
