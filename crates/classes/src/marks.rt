//! Marks of classes by their numbers, 64 to a word.

ghost use Rattle.std.specs.Prelude.{◌≡◌, ◌*◌, ◌<◌, ◌&&◌, ◌||◌, ℕ, length, nat_eq, nat_lt, slice_get, unwrap_or, true};
ghost use Rattle.std.specs.List.{find, list_all, list_any};
ghost use Rattle.classes.specs.Marks.{is_in, is_marked};

use jvms_program::number::ClassNumber;

/// Returns the word at a place, or a word without marks if there is none.
fn word_at(words: &[u64], place: usize) -> u64
    ensures { result ≡ unwrap_or (slice_get words.now place) 0 }
{
    words.get(place).copied().unwrap_or(0)
}

/// Returns whether a class is marked.
pub(crate) fn is_marked(words: &[u64], class: ClassNumber) -> bool
    ensures { result ≡ is_marked words.now class }
{
    (word_at(words, class / 64) >> (class % 64)) & 1 == 1
}

/// Marks a class.
pub(crate) fn mark(words: &mut [u64], class: ClassNumber)
    requires { class < 64 * length words.old }
    ensures { (n : ℕ) → is_marked words.new n ≡ (nat_eq n class || is_marked words.old n) }
{
    words[class / 64] |= 1 << (class % 64);
}

/// Marks a class if `is` is true.
pub(crate) fn mark_if(words: &mut [u64], class: ClassNumber, is: bool)
    requires { class < 64 * length words.old }
    ensures { (n : ℕ) → is_marked words.new n ≡ ((is && nat_eq n class) || is_marked words.old n) }
{
    if is {
        mark(words, class);
    }
}

/// Marks some classes.
pub(crate) fn mark_all(words: &mut [u64], classes: &[usize])
    requires { list_all (λ n. nat_lt n (64 * length words.old)) classes.now ≡ true }
    ensures { (n : ℕ) → is_marked words.new n ≡ (is_in classes.now n || is_marked words.old n) }
{
    for class in classes {
        mark(words, *class);
    }
}

/// Returns whether one of these classes is marked.
pub(crate) fn is_any_marked(words: &[u64], classes: &[usize]) -> bool
    ensures { result ≡ list_any (is_marked words.now) classes.now }
{
    classes.iter().any(|class| is_marked(words, *class))
}

/// Returns the first of these classes that is marked.
pub(crate) fn first_marked(words: &[u64], classes: &[usize]) -> Option<usize>
    ensures { result ≡ find (is_marked words.now) classes.now }
{
    classes
        .iter()
        .copied()
        .find(|class| is_marked(words, *class))
}
