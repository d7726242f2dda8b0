// What a request may see, said of each id, and whose a token is.
ghost use Rattle.std.specs.Prelude.{◌≡◌, ◌↔◌, ℕ, ◌<◌, List, map, Contains, Option, None, Some, true, false};
ghost use Rattle.std.specs.List.{list_all, IsDistinct};
ghost use Rattle.std.specs.Str.{bytes_eq};
ghost use Rattle.gl_fields.specs.Fields.{Rises};
ghost use Rattle.gl_streams.specs.Ids.{has_id};
ghost use Rattle.gl_streams.specs.declared.stream.Stream.{Stream};
ghost use Rattle.gl_settings.specs.Settings.{Settings, has_stream};
ghost use Rattle.gl_settings.specs.declared.user.User.{User};
ghost use Rattle.gl_access.specs.declared.access.Doing.TheVariants.{Search};
ghost use Rattle.gl_access.specs.Permission.{ids_seen, judged, may_see, permitted_of, token_hash, user_in};

/// Law: a request sees just the streams of which `may` says so, and none where it has no user's token. An administrator
/// sees all, another user just his list, where all of it is there. The ids rise where the settings' streams do.
pub fn law_permitted()
    ensures ids { (settings : Settings) (user : User) (id : ℕ) → has_id id (ids_seen settings user) ≡ may_see settings user id }
    ensures seen { (settings : Settings) (token : Option (List ℕ)) (ids : List ℕ) (id : ℕ) → permitted_of settings token ≡ Some ids
        → (has_id id ids ≡ true) ↔ (judged settings token (Search id) ≡ None) }
    ensures administrator { (settings : Settings) (user : User) → user.admin ≡ true
        → ids_seen settings user ≡ map (λ (stream : Stream). stream.id) settings.streams }
    ensures list { (settings : Settings) (user : User) (id : ℕ) → user.admin ≡ false → list_all (has_stream settings) user.streams ≡ true
        → has_id id (ids_seen settings user) ≡ has_id id user.streams }
    ensures rising { (settings : Settings) (user : User) → Rises (λ (a b : Stream). a.id < b.id) settings.streams
        → Rises (λ (a b : ℕ). a < b) (ids_seen settings user) }
{}

/// Law: where no two users have one hash, a token is that of the user who has its hash.
pub fn law_one_user()
    ensures { (settings : Settings) (token : List ℕ) (user : User) → IsDistinct bytes_eq (map (λ (other : User). other.token_sha256) settings.users)
        → Contains settings.users user → user.token_sha256 ≡ token_hash token → user_in settings token ≡ Some user }
{}
