//! Words that are nearly the same.
ghost use Rattle.std.specs.Prelude.{◌≡◌, ◌==◌, ◌↔◌, List, map, reverse, IsTrue, IfSome, IfNone};
ghost use Rattle.std.specs.List.{common_prefix_len};
ghost use Rattle.ncp_play_explain.specs.Near.{folded, IsNear, NoneIsNear, IsFirstNear, IsNearest};

// The maximum number of wrong letters in one place.
const WRONG: usize = 2;

// The minimum number of letters that two words have in common.
const COMMON: usize = 2;

// A letter as compared: a capital as the small letter, and '_' as '-'.
fn folded(byte: u8) -> u8
    ensures { result ≡ folded byte }
{
    if byte == b'_' {
        b'-'
    } else {
        byte.to_ascii_lowercase()
    }
}

// The length of the common prefix of two words.
fn common_front(one: &[u8], other: &[u8]) -> usize
    ensures { result ≡ common_prefix_len (λ a b. folded a == folded b) one.now other.now }
{
    one.iter()
        .zip(other.iter())
        .take_while(|(a, b)| folded(**a) == folded(**b))
        .count()
}

// The length of their common suffix.
fn common_end(one: &[u8], other: &[u8]) -> usize
    ensures { result ≡ common_prefix_len (λ a b. folded a == folded b) (reverse one.now) (reverse other.now) }
{
    one.iter()
        .rev()
        .zip(other.iter().rev())
        .take_while(|(a, b)| folded(**a) == folded(**b))
        .count()
}

// Whether two words differ in one place, by at most `most` letters, and have enough in common.
fn is_near(most: usize, word: &[u8], known: &[u8]) -> bool
    ensures near { IsTrue result → IsNear most word.now known.now }
    ensures far { IsNear most word.now known.now → IsTrue result }
{
    let shorter = word.len().min(known.len());
    let longer = word.len().max(known.len());
    let front = common_front(word, known).min(shorter);
    let end = common_end(word, known).min(shorter - front);
    let common = front + end;
    let few = longer - common <= most;
    few && common >= COMMON
}

// The first of these words that is near.
fn first_near<'a>(most: usize, word: &str, known: &[&'a str]) -> Option<&'a str>
    ensures found { IfSome result (λ near. IsFirstNear most word.now (map (λ one. one.now) known.now) near.now) }
    ensures none { IfNone result (NoneIsNear most word.now (map (λ one. one.now) known.now)) }
{
    for candidate in known {
        if is_near(most, word.as_bytes(), candidate.as_bytes()) {
            return Some(*candidate);
        }
    }
    None
}

/// The nearest of these words: capital and small letters count as the same, and so do `-` and `_`,
/// and in one place up to two letters may be wrong, missing, or too many, if at least two letters
/// agree. If two words are equally near, the first is returned.
pub fn nearest<'a>(word: &str, known: &[&'a str]) -> Option<&'a str>
    ensures found { IfSome result (λ near. IsNearest word.now (map (λ one. one.now) known.now) near.now) }
    ensures none { IfNone result (NoneIsNear 2 word.now (map (λ one. one.now) known.now)) }
{
    for most in 0..WRONG + 1 {
        if let Some(near) = first_near(most, word, known) {
            return Some(near);
        }
    }
    None
}
