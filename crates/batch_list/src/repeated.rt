//! Whether a result's name occurs twice. If so, a file would be overwritten by another result, or a file that is read would be.

ghost use Rattle.std.specs.Prelude.{◌≡◌, ◌<◌, count_by, map};
ghost use Rattle.std.specs.Option.{option_map};
ghost use Rattle.std.specs.Str.{bytes_eq};
ghost use Rattle.batch_list.specs.Repeated.{is_given_twice, repeated_result};

use crate::line::BatchLine;

/// Returns how often the name is among these words.
fn times_in_words(name: &str, words: &[&str]) -> usize
    ensures { result ≡ count_by (bytes_eq name.now) (map (λ w. w.now) words.now) }
{
    words.iter().filter(|word| name == **word).count()
}

/// Returns how often the name is the name of a scenario.
fn times_a_scenario(name: &str, lines: &[BatchLine]) -> usize
    ensures { result ≡ count_by (bytes_eq name.now) (map (λ l. l.scenario) lines.now) }
{
    lines.iter().filter(|line| name == line.scenario()).count()
}

/// Returns how often the name is the name of a result.
fn times_a_result(name: &str, lines: &[BatchLine]) -> usize
    ensures { result ≡ count_by (bytes_eq name.now) (map (λ l. l.result) lines.now) }
{
    lines.iter().filter(|line| name == line.result()).count()
}

/// Checks whether the name occurs more than once, as a word, a scenario or a result.
fn is_given_twice(name: &str, words: &[&str], lines: &[BatchLine]) -> bool
    ensures { result ≡ is_given_twice name.now (map (λ w. w.now) words.now) lines.now }
{
    let times = times_in_words(name, words)
        + times_a_scenario(name, lines)
        + times_a_result(name, lines);
    times > 1
}

/// Returns the first result's name, in the order of the list, that occurs more than once. It equals one of the words, a scenario's
/// name, or another result's name. Names are compared byte by byte, so `a` and `./a` differ. Two scenarios, or two words, may
/// have the same name.
pub fn first_repeated<'a>(words: &[&str], lines: &'a [BatchLine]) -> Option<&'a str>
    ensures { option_map (λ name. name.now) result ≡ repeated_result (map (λ w. w.now) words.now) lines.now }
{
    for line in lines {
        let name = line.result();
        if is_given_twice(name, words, lines) {
            return Some(name);
        }
    }
    None
}
