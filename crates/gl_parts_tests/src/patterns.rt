// Patterns find what `regex` finds, and a shop keeps the text that it refused.
use gl_outside::Outside;
use gl_patterns::{ListShop, Pattern, PatternShop, RegexShop};
use std::alloc::{AllocError, Global};
use std::test::*;

type Span = Option<(usize, usize)>;

// A pattern, a text, the number of a group, and what it spans of the first match.
const GROUPS: [(&str, &str, u32, Span); 12] = [
    (USER, "user=ann id=42", 0, Some((0, 8))),
    (USER, "user=ann id=42", 1, Some((5, 8))),
    (USER, "user=ann id=42", 2, None),
    (USER, "user=ann id=42", u32::MAX, None),
    (USER, "id=42", 0, None),
    // The first match counts, and bytes are counted: the two letters before it take two bytes each.
    (USER, "\u{e9}\u{e9} user=b user=c", 1, Some((10, 11))),
    // A group that took no part.
    (EITHER, "zy", 1, None),
    (EITHER, "zy", 2, Some((1, 2))),
    // An empty pattern is found in each text, the empty one too.
    ("", "ab", 0, Some((0, 0))),
    ("", "", 0, Some((0, 0))),
    (USER, "", 0, None),
    (USER, "user=", 0, None),
];

// The same by the name of a group.
const NAMES: [(&str, &str, &str, Span); 4] = [
    (USER, "user=ann id=42", "g0", Some((5, 8))),
    (USER, "user=ann id=42", "g1", None),
    (EITHER, "zy", "a", None),
    (EITHER, "zy", "b", Some((1, 2))),
];

const USER: &str = "user=(?P<g0>[A-Za-z0-9_]+)";

const EITHER: &str = "(?P<a>x)|(?P<b>y)";

fn built(alloc: Global, pattern: &str) -> Option<Pattern> {
    let mut shop = RegexShop::new(alloc);
    match shop.build(pattern) {
        Ok(pattern) => Some(pattern),
        Err(_) => None,
    }
}

// Whether a group spans this, and whether the pattern is found just where it matches at all.
fn spans(pattern: &mut Pattern, text: &str, number: u32, span: Span) -> Result<bool, AllocError> {
    let is_found = pattern.found(text)?;
    let whole = pattern.group(text, 0)?;
    Ok(pattern.group(text, number)? == span && is_found == whole.is_some())
}

#[test]
fn groups_of_the_first_match(rt: HostRuntime) -> Result<(), Fail> {
    for (pattern, text, number, span) in GROUPS {
        let Some(mut pattern) = built(rt.alloc(), pattern) else {
            return Err(Fail::new("no pattern"));
        };
        assert!(rt; spans(&mut pattern, text, number, span)?);
    }
    Ok(())
}

#[test]
fn groups_by_their_names(rt: HostRuntime) -> Result<(), Fail> {
    for (pattern, text, name, span) in NAMES {
        let Some(mut pattern) = built(rt.alloc(), pattern) else {
            return Err(Fail::new("no pattern"));
        };
        assert!(rt; pattern.named(text, name)? == span);
    }
    Ok(())
}

// A text that a shop is to build, whether it does, and then the last text that it refused and how many.
type Build = (&'static str, bool, &'static str, u64);

fn answers<S: PatternShop>(shop: &mut S, (text, is_built, refused, faults): Build) -> bool {
    let is_answer = match shop.build(text) {
        Ok(_) => is_built,
        Err(fault) => !is_built && fault == Outside::Failed,
    };
    is_answer && shop.refused() == refused && shop.faults() == faults
}

const BUILDS: [Build; 3] = [
    ("(", false, "(", 1),
    ("a+", true, "(", 1),
    ("[b", false, "[b", 2),
];

#[test]
fn a_shop_keeps_the_text_that_it_refused(rt: HostRuntime) {
    let mut shop = RegexShop::new(rt.alloc());
    assert!(rt; shop.refused() == "" && shop.faults() == 0);
    for build in BUILDS {
        assert!(rt; answers(&mut shop, build));
    }
}

// The second call of this shop is to fail.
const LISTED: [Build; 4] = [
    ("a+", true, "", 0),
    ("b+", false, "b+", 1),
    ("b+", true, "b+", 1),
    ("(", false, "(", 2),
];

#[test]
fn a_shop_fails_where_listed(rt: HostRuntime) -> Result<(), Fail> {
    let alloc = rt.alloc();
    let mut shop = ListShop::new(alloc, Vec::from_slice(alloc, &[2])?);
    for build in LISTED {
        assert!(rt; answers(&mut shop, build));
    }
    Ok(())
}
