//! Whether words that ask for nothing ask why.

ghost use Rattle.std.specs.Prelude.{◌≡◌, map, string_bytes};
ghost use Rattle.debug_host_options.specs.Explains.{names_explain};

/// Whether `--explain` is one of these words, before `--`.
pub fn names_explain(words: &[String]) -> bool
    ensures { result ≡ names_explain (map string_bytes words.now) }
{
    let mut rest = words;
    while let [word, after @ ..] = rest {
        if word.as_str() == "--" {
            return false;
        }
        if word.as_str() == "--explain" {
            return true;
        }
        rest = after;
    }
    false
}
