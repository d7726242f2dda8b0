// What groups span, by the cells that a search fills, and which group has a name.
ghost use Rattle.std.specs.Prelude.{◌≡◌, ◌↔◌, ℕ, ◌<◌, IsTrue, None, Some, length, option_map, slice_index_or, string_bytes};
ghost use Rattle.regex.specs.Names.{names_of, IsIndexOf};
ghost use Rattle.gl_patterns.specs.Cells.{held, span_in_cells};
ghost use Rattle.regex.specs.Writes.{both};

/// What a group spans; group 0 is the whole match.
pub fn span_of(whole: (usize, usize), cells: &[usize], group: usize) -> Option<(usize, usize)>
    ensures { result ≡ span_in_cells whole cells.now group }
{
    if group == 0 {
        return Some(whole);
    }
    if group > cells.len() / 2 {
        return None;
    }
    span_between(cells[2 * group - 2], cells[2 * group - 1])
}

// The span from one cell's place to the other's.
fn span_between(first: usize, last: usize) -> Option<(usize, usize)>
    ensures { result ≡ both (held first) (held last) }
{
    if first == 0 {
        return None;
    }
    if last == 0 {
        return None;
    }
    Some((first - 1, last - 1))
}

/// Gives the n-th place what group n spans.
pub fn fill_spans(whole: (usize, usize), cells: &[usize], spans: &mut [Option<(usize, usize)>])
    ensures size { length spans.new ≡ length spans.old }
    ensures each { (n : ℕ) → n < length spans.old → slice_index_or spans.new n None ≡ span_in_cells whole cells.now n }
{
    'groups: for group in 0..spans.len() {
        spans[group] = span_of(whole, cells, group);
    }
}

/// Gives each place nothing.
pub fn clear_spans(spans: &mut [Option<(usize, usize)>])
    ensures size { length spans.new ≡ length spans.old }
    ensures each { (n : ℕ) → n < length spans.old → slice_index_or spans.new n None ≡ None }
{
    'groups: for group in 0..spans.len() {
        spans[group] = None;
    }
}

/// The number of the first group with a name.
pub fn index_of(names: &[Option<String>], name: &str) -> Option<usize>
    ensures { IsIndexOf (names_of names.now) name.now result }
{
    'names: for index in 0..names.len() {
        if has_name(&names[index], name) {
            return Some(index);
        }
    }
    None
}

fn has_name(own: &Option<String>, name: &str) -> bool
    ensures { IsTrue result ↔ (option_map string_bytes own.now ≡ Some name.now) }
{
    match own {
        Some(own) => own.as_str() == name,
        None => false,
    }
}
