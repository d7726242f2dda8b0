// The minute of a row.
ghost use Rattle.std.specs.Prelude.{◌≡◌, ◌*◌, nat_lt};
ghost use Rattle.gl_moments.specs.Minutes.{minute_at, minute_of};

use gl_fields::Value;
use gl_indexset::Row;

/// How many milliseconds a minute has.
pub(crate) const MINUTE: u64 = 60_000;

// The minute of a time in milliseconds since 1970.
fn minute_at(time: i64) -> u64
    ensures { result ≡ minute_at time }
{
    match u64::try_from(time) {
        Ok(time) => time / MINUTE,
        Err(_) => 0,
    }
}

/// The minute of a row's time, since 1970.
#[tactic(auto, unfolding(crate::specs::Minutes::minute_of))]
pub(crate) fn minute_of(row: &Row) -> u64
    ensures { result ≡ minute_of row.now }
{
    match row.fields.get().get("timestamp") {
        Some(Value::Whole(time)) => minute_at(*time),
        _ => 0,
    }
}

/// Whether a minute begins before a moment, in milliseconds since 1970.
pub(crate) fn begins_before(minute: u64, to: u64) -> bool
    ensures { result ≡ nat_lt (minute * 60000) to }
{
    match to.checked_sub(1) {
        Some(last) => minute <= last / MINUTE,
        None => false,
    }
}
